//! What is known of slots of atomic actions and of objects.
ghost use Rattle.std.specs.Prelude.{◌≡◌, ℕ, slice_get};
ghost use Rattle.pst_model.specs.ConstraintTree.{view_slot};
ghost use Rattle.pst_model.specs.ModelView.{view_model};
ghost use Rattle.pst_model.specs.Sound.{IsSound};
ghost use Rattle.pst_legal.specs.Types.{action_field};
ghost use Rattle.pst_legal.specs.Blanks.{OfAct};
ghost use Rattle.pst_legal.specs.Standing.{value_or, open_value, field_span};
ghost use Rattle.pst_legal.specs.Slots.{act_slot, output_slot, resource_slot, first_object_slot};
ghost use Rattle.pst_known.specs.Known.{known_of, seen};

use crate::claims::{claim_field, claim_number};
use crate::flows::{first_field, initial_of, linked_field, object_field, written_field};
use crate::known::{Known, read_or};
use crate::scene::Scene;
use crate::spans::action_span;
use pst_model::{Model, Slot};
use pst_scen::{Act, Filled};

// A field of an atomic action.
fn own_field(model: &Model, act: &Act, field: u32) -> Known
    ensures { (a : ℕ) → result ≡ known_of (value_or (slice_get act.now.fields field) (open_value (OfAct a field) (field_span (action_field (view_model model.now) act.now.action field)))) }
{
    read_or(
        act.fields.as_slice(),
        field,
        action_span(model, act.action, field),
    )
}

/// What belongs to an atomic action.
pub fn act_slot(scene: &Scene<'_>, act: &Act, slot: &Slot) -> Known
    requires { IsSound (view_model scene.now.model.now) }
    ensures { (a : ℕ) → result ≡ known_of (act_slot (view_model scene.now.model.now) (seen scene.now) a act.now (view_slot slot.now)) }
{
    match slot {
        Slot::Own { field } => own_field(scene.model, act, *field),
        Slot::Object { reference, field } => {
            object_field(scene, act.references.as_slice(), *reference, *field)
        }
        Slot::First { reference } => initial_of(act.references.as_slice(), *reference),
        Slot::ClaimId { claim } => claim_number(scene.model, act, *claim),
        Slot::ClaimField { claim, field } => claim_field(scene.model, act, *claim, *field),
        _ => Known::Lacking,
    }
}

/// What belongs to the object that an output writes. `prev` is the object of the previous writer, or
/// the first object.
pub fn output_slot(scene: &Scene<'_>, filled: &Filled, slot: &Slot) -> Known
    ensures { (a r : ℕ) → result ≡ known_of (output_slot (view_model scene.now.model.now) (seen scene.now) a r filled.now (view_slot slot.now)) }
{
    match slot {
        Slot::Own { field } => written_field(scene.model, filled, *field),
        Slot::Prev { field } => linked_field(scene, filled.pool, filled.link, *field),
        Slot::IsFirst => Known::Value(0),
        _ => Known::Lacking,
    }
}

/// What belongs to the resource of a claim.
pub fn resource_slot(model: &Model, act: &Act, claim: u32, slot: &Slot) -> Known
    requires { IsSound (view_model model.now) }
    ensures { (a : ℕ) → result ≡ known_of (resource_slot (view_model model.now) a act.now claim (view_slot slot.now)) }
{
    match slot {
        Slot::Own { field } => claim_field(model, act, claim, *field),
        Slot::Id => claim_number(model, act, claim),
        _ => Known::Lacking,
    }
}

/// What belongs to the first object of a pool.
pub fn first_object_slot(scene: &Scene<'_>, pool: u32, slot: &Slot) -> Known
    ensures { result ≡ known_of (first_object_slot (view_model scene.now.model.now) (seen scene.now) pool (view_slot slot.now)) }
{
    match slot {
        Slot::Own { field } => first_field(scene, pool, *field),
        Slot::IsFirst => Known::Value(1),
        _ => Known::Lacking,
    }
}
