//! Whether inline constraints are refused that look behind a handle of the action round their traversal.
ghost use Rattle.std.specs.Prelude.{◌≡◌, ◌&&◌, length, map, nat_eq, IfOk};
ghost use Rattle.std.specs.List.{list_any};
ghost use Rattle.std.specs.Option.{option_map};
ghost use Rattle.pst_model.specs.ConstraintTree.{view_slot, view_constraint};
ghost use Rattle.pst_model.specs.ModelView.{view_model, view_step};
ghost use Rattle.pst_model.specs.Sound.{IsSound};
ghost use Rattle.pst_known.specs.Known.{seen};
ghost use Rattle.pst_refusals.specs.Answers.{StandEarlier};
ghost use Rattle.pst_refusals.specs.Founds.{stated_of};
ghost use Rattle.pst_refusals.specs.Places.{ArePlaces};
ghost use Rattle.pst_new_refusals.specs.Settled.{is_behind, is_outer_behind, looks_behind, step_looks, stated_looks, is_looking_refused, AreLookingFree};
ghost use Rattle.pst_new_refusals.specs.Newly.{IfNot};

use pst_base::NoMemory;
use pst_known::Scene;
use pst_model::{Constraint, Slot, Step};
use pst_refusals::{Stated, is_inline_refused, places_of, statement_of};
use std::alloc::Global;

// Whether a slot stands behind the handle.
fn is_behind(slot: &Slot, handle: u32) -> bool
    ensures { result ≡ is_behind handle (view_slot slot.now) }
{
    match slot {
        Slot::Through { handle: other, .. } => handle == *other,
        _ => false,
    }
}

// Whether a slot of an inline constraint stands behind the handle of the action round the traversed one.
fn is_outer_behind(slot: &Slot, handle: u32) -> bool
    ensures { result ≡ is_outer_behind handle (view_slot slot.now) }
{
    match slot {
        Slot::Outer { slot } => is_behind(slot, handle),
        _ => false,
    }
}

fn some_outer_behind(slots: &[Slot], handle: u32) -> bool
    ensures { result ≡ list_any (is_outer_behind handle) (map view_slot slots.now) }
{
    for slot in slots {
        if is_outer_behind(slot, handle) {
            return true;
        }
    }
    false
}

// Whether one of the inline constraints looks behind it.
fn some_looks(inline: &[Constraint], handle: u32) -> bool
    ensures { result ≡ list_any (looks_behind handle) (map view_constraint inline.now) }
{
    for constraint in inline {
        if some_outer_behind(constraint.slots.as_slice(), handle) {
            return true;
        }
    }
    false
}

fn step_looks(step: &Step, handle: u32) -> bool
    ensures { result ≡ step_looks handle (view_step step.now) }
{
    match step {
        Step::Traverse { inline, .. } => some_looks(inline.as_slice(), handle),
        _ => false,
    }
}

// Whether one of a statement in the activity of the action of node `top` does.
fn stated_looks(found: &Option<Stated<'_>>, top: usize, handle: u32) -> bool
    ensures { result ≡ stated_looks top handle (option_map stated_of found.now) }
{
    match found {
        None => false,
        Some(stated) => stated.top == top && step_looks(stated.step, handle),
    }
}

// Whether one at the traversal that a node stands for does, and is refused.
fn is_looking_refused(
    alloc: Global,
    scene: &Scene<'_>,
    places: &[usize],
    top: usize,
    handle: u32,
    n: usize,
) -> Result<bool, NoMemory>
    requires sound { IsSound (view_model scene.now.model.now) }
    requires places { ArePlaces scene.now.nodes.now places.now }
    ensures { IfOk result (λ r. StandEarlier scene.now.nodes.now → r ≡ is_looking_refused (view_model scene.now.model.now) (seen scene.now) top handle n) }
{
    let found = statement_of(alloc, scene.model, scene.nodes, places, n)?;
    if !stated_looks(&found, top, handle) {
        return Ok(false);
    }
    let refused = is_inline_refused(alloc, scene, n)?;
    Ok(refused)
}

/// Whether an inline constraint is refused that looks behind the handle of the action of node `top`, in
/// its activity. All nodes are looked at, and of these the traversals that have such a constraint.
pub(crate) fn some_looking_refused(
    alloc: Global,
    scene: &Scene<'_>,
    top: usize,
    handle: u32,
) -> Result<bool, NoMemory>
    requires { IsSound (view_model scene.now.model.now) }
    ensures { IfOk result (λ r. IfNot r (AreLookingFree (view_model scene.now.model.now) (seen scene.now) top handle (length scene.now.nodes.now))) }
{
    let places = places_of(alloc, scene.nodes)?;
    for n in 0..scene.nodes.len() {
        if is_looking_refused(alloc, scene, places.as_slice(), top, handle, n)? {
            return Ok(true);
        }
    }
    Ok(false)
}
