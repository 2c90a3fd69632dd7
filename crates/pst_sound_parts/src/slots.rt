// Which slots have a meaning where they stand.
ghost use Rattle.std.specs.Prelude.{◌≡◌, ◌<◌, ℕ, IsTrue, ◌↔◌, option_map, map, length, slice_get};
ghost use Rattle.pst_model.specs.ConstraintTree.{view_slot};
ghost use Rattle.pst_model.specs.ModelView.{view_action, view_object, view_model};
ghost use Rattle.pst_model.specs.ConstraintTree.{Through};
ghost use Rattle.pst_sound_parts.specs.Depth.{depth};
ghost use Rattle.std.specs.Option.{IsSomeAnd};
ghost use Rattle.pst_model.specs.declared.object.ObjectKind.TheVariants.{State};
ghost use Rattle.pst_model.specs.SoundSlots.{IsOfKind, HasField, IsActionSlot, IsConditionSlot, IsBodySlot, IsObjectSlot, IsConstraintSlot, IsInlineSlot, handle_type};

use crate::repeats::Repeats;
use crate::traversals::is_steady;
use pst_model::{ActionType, Claim, Content, Model, ObjectKind, ObjectType, Reference, Slot};

/// Whether there is an object type of that number and kind.
pub fn is_of_kind(objects: &[ObjectType], kind: ObjectKind, object: u32) -> bool
    ensures { IsTrue result ↔ IsOfKind (map view_object objects.now) kind object }
{
    match objects.get(object as usize) {
        Some(found) => found.kind == kind,
        None => false,
    }
}

// Whether there is an object type of that number with the field.
fn has_field(objects: &[ObjectType], object: u32, field: u32) -> bool
    ensures { IsTrue result ↔ HasField (map view_object objects.now) object field }
{
    match objects.get(object as usize) {
        Some(found) => (field as usize) < found.fields.len(),
        None => false,
    }
}

// Whether the object of a reference has the field.
fn is_object_field(
    objects: &[ObjectType],
    references: &[Reference],
    reference: u32,
    field: u32,
) -> bool
    ensures { IsTrue result ↔ IsSomeAnd (slice_get references.now reference) (λ r. HasField (map view_object objects.now) r.object field) }
{
    match references.get(reference as usize) {
        Some(found) => has_field(objects, found.object, field),
        None => false,
    }
}

// Whether the reference is of a state.
fn is_state(objects: &[ObjectType], references: &[Reference], reference: u32) -> bool
    ensures { IsTrue result ↔ IsSomeAnd (slice_get references.now reference) (λ r. IsOfKind (map view_object objects.now) State r.object) }
{
    match references.get(reference as usize) {
        Some(found) => is_of_kind(objects, ObjectKind::State, found.object),
        None => false,
    }
}

// Whether the resource of a claim has the field.
fn is_claim_field(objects: &[ObjectType], claims: &[Claim], claim: u32, field: u32) -> bool
    ensures { IsTrue result ↔ IsSomeAnd (slice_get claims.now claim) (λ c. HasField (map view_object objects.now) c.object field) }
{
    match claims.get(claim as usize) {
        Some(found) => has_field(objects, found.object, field),
        None => false,
    }
}

// Whether a slot is a field, or a part of a reference or claim, of an action.
pub fn is_action_slot(objects: &[ObjectType], action: &ActionType, slot: &Slot) -> bool
    ensures { IsTrue result ↔ IsActionSlot (map view_object objects.now) (view_action action.now) (view_slot slot.now) }
{
    match slot {
        Slot::Own { field } => (*field as usize) < action.fields.len(),
        Slot::Object { reference, field } => is_object_field(
            objects,
            action.references.as_slice(),
            *reference,
            *field,
        ),
        Slot::First { reference } => is_state(objects, action.references.as_slice(), *reference),
        Slot::ClaimId { claim } => (*claim as usize) < action.claims.len(),
        Slot::ClaimField { claim, field } => is_claim_field(
            objects,
            action.claims.as_slice(),
            *claim,
            *field,
        ),
        _ => false,
    }
}

// Whether a slot is a field of the action or an index, as a condition of its activity needs.
pub fn is_condition_slot(action: &ActionType, repeats: &Repeats, slot: &Slot) -> bool
    ensures { IsTrue result ↔ IsConditionSlot (view_action action.now) (depth repeats.now) (view_slot slot.now) }
{
    match slot {
        Slot::Own { field } => (*field as usize) < action.fields.len(),
        Slot::Index { level } => repeats.has_level(*level),
        _ => false,
    }
}

// Whether a slot has a meaning in the body of an action.
pub fn is_body_slot(
    objects: &[ObjectType],
    action: &ActionType,
    locals: u32,
    repeats: &Repeats,
    slot: &Slot,
) -> bool
    ensures { IsTrue result ↔ IsBodySlot (map view_object objects.now) (view_action action.now) locals (depth repeats.now) (view_slot slot.now) }
{
    match slot {
        Slot::Index { level } => repeats.has_level(*level),
        Slot::Local { local } => *local < locals,
        _ => is_action_slot(objects, action, slot),
    }
}

// Whether a slot has a meaning in a constraint of an object.
pub fn is_object_slot(object: &ObjectType, slot: &Slot) -> bool
    ensures { IsTrue result ↔ IsObjectSlot (view_object object.now) (view_slot slot.now) }
{
    match slot {
        Slot::Own { field } => (*field as usize) < object.fields.len(),
        Slot::Prev { field } => object.kind == ObjectKind::State
            && (*field as usize) < object.fields.len(),
        Slot::IsFirst => object.kind == ObjectKind::State,
        Slot::Id => object.kind == ObjectKind::Resource,
        _ => false,
    }
}

/// The action type of a handle.
pub fn handle_type<'a>(model: &'a Model, handles: &[u32], handle: u32) -> Option<&'a ActionType>
    ensures { option_map (λ a. view_action a.now) result ≡ handle_type (view_model model.now) handles.now handle }
{
    let number = handles.get(handle as usize)?;
    model.actions.get(*number as usize)
}

// Whether the action of a handle has the slot.
fn is_slot_of_handle(model: &Model, handles: &[u32], handle: u32, slot: &Slot) -> bool
    ensures { IsTrue result ↔ IsSomeAnd (handle_type (view_model model.now) handles.now handle) (λ traversed. IsActionSlot (map view_object model.now.objects.items) traversed (view_slot slot.now)) }
{
    match handle_type(model, handles, handle) {
        Some(traversed) => is_action_slot(model.objects.as_slice(), traversed, slot),
        None => false,
    }
}

// Whether a slot may be named after a handle of the action.
fn is_slot_through(model: &Model, action: &ActionType, handle: u32, slot: &Slot) -> bool
    ensures { IsTrue result ↔ IsConstraintSlot (view_model model.now) (view_action action.now) (Through handle (view_slot slot.now)) }
{
    match &action.content {
        Content::Atomic(_) => false,
        Content::Compound(activity) => {
            is_steady(activity.steps.as_slice(), handle)
                && is_slot_of_handle(model, activity.handles.as_slice(), handle, slot)
        }
    }
}

// Whether a slot has a meaning in a constraint of an action.
pub fn is_constraint_slot(model: &Model, action: &ActionType, slot: &Slot) -> bool
    ensures { IsTrue result ↔ IsConstraintSlot (view_model model.now) (view_action action.now) (view_slot slot.now) }
{
    match slot {
        Slot::Through { handle, slot } => is_slot_through(model, action, *handle, slot),
        _ => is_action_slot(model.objects.as_slice(), action, slot),
    }
}

// Whether a slot has a meaning in an inline constraint on an action that another one traverses.
pub fn is_inline_slot(
    model: &Model,
    action: &ActionType,
    traversed: &ActionType,
    repeats: &Repeats,
    slot: &Slot,
) -> bool
    ensures { IsTrue result ↔ IsInlineSlot (view_model model.now) (view_action action.now) (view_action traversed.now) (depth repeats.now) (view_slot slot.now) }
{
    match slot {
        Slot::Index { level } => repeats.has_level(*level),
        Slot::Outer { slot } => is_constraint_slot(model, action, slot),
        _ => is_constraint_slot(model, traversed, slot),
    }
}
