//! Whether constraints look behind handles.
ghost use Rattle.std.specs.Prelude.{◌≡◌, map};
ghost use Rattle.std.specs.List.{list_any};
ghost use Rattle.pst_model.specs.ConstraintTree.{view_slot, view_constraint};
ghost use Rattle.pst_refusals.specs.Inlines.{is_far_slot, is_far, is_outer_slot, is_outer};

use pst_model::{Constraint, Slot};

// Whether a slot stands behind a handle, of an action itself or of the one round it.
fn is_far_slot(slot: &Slot) -> bool
    ensures { result ≡ is_far_slot (view_slot slot.now) }
{
    match slot {
        Slot::Through { .. } => true,
        Slot::Outer { slot } => is_far_slot(slot),
        _ => false,
    }
}

// Whether one of the slots stands behind a handle.
fn some_far_slot(slots: &[Slot]) -> bool
    ensures { result ≡ list_any is_far_slot (map view_slot slots.now) }
{
    for slot in slots {
        if is_far_slot(slot) {
            return true;
        }
    }
    false
}

/// Whether one of the constraints looks behind a handle.
pub fn some_far(constraints: &[Constraint]) -> bool
    ensures { result ≡ list_any is_far (map view_constraint constraints.now) }
{
    for constraint in constraints {
        if some_far_slot(constraint.slots.as_slice()) {
            return true;
        }
    }
    false
}

// Whether a slot of an inline constraint stands behind a handle of the action round the traversed one.
fn is_outer_slot(slot: &Slot) -> bool
    ensures { result ≡ is_outer_slot (view_slot slot.now) }
{
    match slot {
        Slot::Outer { slot } => is_far_slot(slot),
        _ => false,
    }
}

fn some_outer_slot(slots: &[Slot]) -> bool
    ensures { result ≡ list_any is_outer_slot (map view_slot slots.now) }
{
    for slot in slots {
        if is_outer_slot(slot) {
            return true;
        }
    }
    false
}

/// Whether one of the inline constraints looks behind a handle of the action round the traversed one.
pub(crate) fn some_outer(constraints: &[Constraint]) -> bool
    ensures { result ≡ list_any is_outer (map view_constraint constraints.now) }
{
    for constraint in constraints {
        if some_outer_slot(constraint.slots.as_slice()) {
            return true;
        }
    }
    false
}
