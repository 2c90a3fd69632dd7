//! What is printed of a run of a generated model.
ghost use Rattle.std.specs.Prelude.{◌≡◌, IfOk, string_bytes};
ghost use Rattle.pst_generated.specs.Generated as spec;

use pst_base::NoMemory;
use std::alloc::Global;

/// What is printed of a run of the model of that size, in which so many actions of each of the two
/// types ended, and so many in all.
pub fn counts_text(
    alloc: Global,
    size: u32,
    make: u32,
    take: u32,
    actions: u32,
) -> Result<String, NoMemory>
    ensures { IfOk result (λ text. string_bytes text ≡ spec.counts_text size make take actions) }
{
    Ok(format!(in alloc; "pst 2\ngen {size}\nmake {make}\ntake {take}\ndone {actions}\n")?)
}
