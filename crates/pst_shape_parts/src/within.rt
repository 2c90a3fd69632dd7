//! The component instances in which an action may run.
ghost use Rattle.std.specs.Prelude.{◌≡◌, IfOk, IsTrue, ◌↔◌, Bool};
ghost use Rattle.pst_legal.specs.Types.{instances_of, is_under};
ghost use Rattle.pst_model.specs.ModelView.{view_model};

use pst_base::{NameId, NoMemory};
use pst_model::{Model, Part};
use std::alloc::Global;

// Whether an instance lies in the subtree of `top`, itself included; every instance does where there
// is no top.
fn is_under(model: &Model, top: Option<u32>, instance: usize) -> bool
    ensures { result ≡ is_under (view_model model.now) top instance }
{
    match top {
        None => true,
        Some(top) => match model.instances.get(top as usize) {
            Some(part) => top as usize <= instance && instance <= part.last as usize,
            None => false,
        },
    }
}

// The number, where it fits 32 bits.
fn narrow(number: usize) -> Result<u32, NoMemory>
    ensures { IfOk result (λ n. n ≡ number) }
{
    match u32::try_from(number) {
        Ok(number) => Ok(number),
        Err(_) => Err(NoMemory),
    }
}

/// The instances of a component in the subtree of `top`, by number.
pub fn instances(
    alloc: Global,
    model: &Model,
    component: NameId,
    top: Option<u32>,
) -> Result<Vec<u32>, NoMemory>
    ensures { IfOk result (λ found. found.items ≡ instances_of (view_model model.now) component top) }
{
    let mut found = Vec::new(alloc);
    let mut number = 0;
    for part in model.instances.as_slice() {
        if part.component == component && is_under(model, top, number) {
            found.push(narrow(number)?)?;
        }
        number += 1;
    }
    Ok(found)
}
