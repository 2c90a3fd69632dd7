//! Ways down to handles.
ghost use Rattle.std.specs.Prelude.{◌≡◌, IfOk, map, slice_get};
ghost use Rattle.std.specs.Option.{option_map};
ghost use Rattle.pst_model.specs.ModelView.{view_model, view_step};
ghost use Rattle.pst_legal.specs.Statements.{way_in, way_in_step};
ghost use Rattle.pst_handle_nodes.specs.Ways.{Leads, items_of, way_to};

use pst_base::NoMemory;
use pst_model::{Content, Model, Step};
use std::alloc::Global;

// Looks for the traversal by a handle in a step, and adds the places on the way down to it, the last one first.
// Nothing is added on ways that don't lead there.
#[cycle(ways)]
fn find_in_step(step: &Step, handle: u32, way: &mut Vec<usize>) -> Result<bool, NoMemory>
    ensures { IfOk result (λ found. Leads (way_in_step handle (view_step step.now)) found way.old.items way.new.items) }
{
    match step {
        Step::Traverse { handle: by, .. } => match by {
            Some(by) => Ok(*by == handle),
            None => Ok(false),
        },
        Step::Sequence(steps) => find_in(steps.as_slice(), handle, way),
        Step::Parallel(steps) => find_in(steps.as_slice(), handle, way),
        Step::Schedule(steps) => find_in(steps.as_slice(), handle, way),
        Step::Joined { steps, .. } => find_in(steps.as_slice(), handle, way),
        _ => Ok(false),
    }
}

// The same in one of a row of steps.
#[cycle(ways)]
fn find_in(steps: &[Step], handle: u32, way: &mut Vec<usize>) -> Result<bool, NoMemory>
    ensures { IfOk result (λ found. Leads (way_in handle 0 (map view_step steps.now)) found way.old.items way.new.items) }
{
    let mut index = 0;
    for step in steps {
        if find_in_step(step, handle, way)? {
            way.push(index)?;
            return Ok(true);
        }
        index += 1;
    }
    Ok(false)
}

// The way down to the traversal by a handle, in a row of steps.
fn way_in(alloc: Global, steps: &[Step], handle: u32) -> Result<Option<Vec<usize>>, NoMemory>
    ensures { IfOk result (λ way. option_map items_of way ≡ way_in handle 0 (map view_step steps.now)) }
{
    let mut way = Vec::new(alloc);
    let found = find_in(steps, handle, &mut way)?;
    if !found {
        return Ok(None);
    }
    way.reverse();
    Ok(Some(way))
}

/// The way down to the traversal by a handle, in the activity of an action type.
pub(crate) fn way_of(
    alloc: Global,
    model: &Model,
    action: usize,
    handle: u32,
) -> Result<Option<Vec<usize>>, NoMemory>
    ensures { IfOk result (λ way. option_map items_of way ≡ way_to (view_model model.now) action handle) }
{
    let Some(kind) = model.actions.get(action) else {
        return Ok(None);
    };
    match &kind.content {
        Content::Atomic(_) => Ok(None),
        Content::Compound(activity) => way_in(alloc, activity.steps.as_slice(), handle),
    }
}
