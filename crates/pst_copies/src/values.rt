//! Copies of values.
ghost use Rattle.std.specs.Prelude.{◌≡◌, IfOk};

use pst_base::{Items, NoMemory};
use std::alloc::Global;

/// The same values.
pub(crate) fn copy_values(alloc: Global, values: &[i64]) -> Result<Items<i64>, NoMemory>
    ensures { IfOk result (λ copy. copy ≡ values.now) }
{
    Ok(Items::from_vec(Vec::from_slice(alloc, values)?))
}
