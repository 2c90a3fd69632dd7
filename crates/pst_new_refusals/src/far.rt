//! Whether a model has constraints that look at other actions than their own.
ghost use Rattle.std.specs.Prelude.{◌≡◌, IfOk, map};
ghost use Rattle.std.specs.List.{list_any};
ghost use Rattle.pst_model.specs.ModelView.{view_model, view_action};
ghost use Rattle.pst_new_refusals.specs.Far.{is_far_type, AreFarOf};
ghost use Rattle.pst_new_refusals.specs.Named.{named_of, rows};

use crate::named::named_of;
use pst_base::NoMemory;
use pst_model::{ActionType, Model};
use pst_refusals::{Sought, content_has, some_far};
use std::alloc::Global;

/// Which action types of a model have constraints that look behind handles.
#[derive(Drop)]
pub struct FarTypes {
    /// Whether one of them has: a constraint of its own, or an inline one in its activity.
    pub some: bool,
    /// Of each type, the handles that inline constraints in its activity name of its action.
    pub named: Vec<Vec<u32>>,
}

// Whether one of the constraints of an action type, or an inline one in its activity, looks behind a
// handle.
fn is_far_type(kind: &ActionType) -> bool
    ensures { result ≡ is_far_type (view_action kind.now) }
{
    some_far(kind.constraints.as_slice()) || content_has(Sought::Far, &kind.content)
}

fn some_far_type(kinds: &[ActionType]) -> bool
    ensures { result ≡ list_any is_far_type (map view_action kinds.now) }
{
    for kind in kinds {
        if is_far_type(kind) {
            return true;
        }
    }
    false
}

// Of each action type, the handles that inline constraints in its activity name of its action.
fn named_by(alloc: Global, kinds: &[ActionType]) -> Result<Vec<Vec<u32>>, NoMemory>
    ensures { IfOk result (λ found. rows found.items ≡ map named_of (map view_action kinds.now)) }
{
    let mut found = Vec::new(alloc);
    for kind in kinds {
        let named = named_of(alloc, kind)?;
        found.push(named)?;
    }
    Ok(found)
}

/// Which action types of the model have constraints that look behind handles.
pub fn far_types(alloc: Global, model: &Model) -> Result<FarTypes, NoMemory>
    ensures { IfOk result (λ far. AreFarOf (view_model model.now) far) }
{
    let some = some_far_type(model.actions.as_slice());
    let named = named_by(alloc, model.actions.as_slice())?;
    Ok(FarTypes { some, named })
}
