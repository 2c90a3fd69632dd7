//! What the variables of a body's expressions stand for.
ghost use Rattle.std.specs.Prelude.{◌≡◌, ℤ, pos, List, slice_get, length};
ghost use Rattle.std.specs.Option.{option_map};
ghost use Rattle.pst_model.specs.ConstraintTree.{view_slot};
ghost use Rattle.pst_model.specs.ModelView.{view_model};
ghost use Rattle.pst_model.specs.ConstraintTree.{Own};
ghost use Rattle.pst_scen.specs.Scenarios.{reference_at};
ghost use Rattle.pst_legal.specs.Body.{slot_value as slot_value_of};
ghost use Rattle.pst_legal.specs.Standing.{value_of};
ghost use Rattle.pst_legal.specs.Slots.{first_values, output_values, linked_slot, flow_slot, initial_slot, initial_by, claim_slot, claim_field_slot, act_slot};
ghost use Rattle.pst_body.specs.Sites.{place_of};

use crate::site::Site;
use crate::turns::Turns;
use pst_model::Slot;
use pst_scen::{First, Flow, Link};

/// The value of that number.
fn value_at(values: &[i64], number: u32) -> Option<i64>
    ensures { result ≡ slice_get values.now number }
{
    values.get(number as usize).copied()
}

/// A field of the first object of a pool.
fn first_field(firsts: &[First], pool: u32, field: u32) -> Option<i64>
    ensures { result ≡ slice_get (first_values firsts.now pool) field }
{
    for first in firsts {
        if first.pool == pool {
            return value_at(first.values.as_slice(), field);
        }
    }
    None
}

/// A field of what an action wrote by a reference.
fn written_field(site: &Site<'_>, act: u32, reference: u32, field: u32) -> Option<i64>
    ensures { result ≡ slice_get (output_values (reference_at site.now.scenario.now.actions act reference)) field }
{
    let act = site.scenario.actions.as_slice().get(act as usize)?;
    let filled = act.references.as_slice().get(reference as usize)?;
    filled.values.as_slice().get(field as usize).copied()
}

/// A field of the object that a link leads to.
fn linked_field(site: &Site<'_>, pool: u32, link: Link, field: u32) -> Option<i64>
    ensures { result ≡ value_of (linked_slot (view_model site.now.model.now) site.now.scenario.now pool link field) }
{
    match link {
        Link::Nothing => None,
        Link::Initial => first_field(site.scenario.firsts.as_slice(), pool, field),
        Link::Act { act, reference } => written_field(site, act, reference, field),
    }
}

/// A field of the object of a reference.
fn object_field(site: &Site<'_>, reference: u32, field: u32) -> Option<i64>
    ensures { result ≡ value_of (flow_slot (view_model site.now.model.now) site.now.scenario.now site.now.number reference (slice_get site.now.act.now.references reference) field) }
{
    let filled = site.act.references.as_slice().get(reference as usize)?;
    match filled.flow {
        Flow::BufferOut | Flow::StreamOut | Flow::StateOut => {
            filled.values.as_slice().get(field as usize).copied()
        }
        Flow::BufferIn | Flow::StreamIn | Flow::StateIn => {
            linked_field(site, filled.pool, filled.link, field)
        }
    }
}

/// Whether the object of a state reference is its pool's first one.
fn is_first(flow: Flow, link: Link) -> Option<i64>
    ensures { result ≡ value_of (initial_by flow link) }
{
    match flow {
        Flow::StateIn => match link {
            Link::Nothing => None,
            Link::Initial => Some(1),
            Link::Act { .. } => Some(0),
        },
        Flow::StateOut => Some(0),
        Flow::BufferIn | Flow::BufferOut | Flow::StreamIn | Flow::StreamOut => None,
    }
}

/// Whether the object of the state reference of that number is its pool's first one.
fn first_truth(site: &Site<'_>, reference: u32) -> Option<i64>
    ensures { result ≡ value_of (initial_slot (slice_get site.now.act.now.references reference)) }
{
    let filled = site.act.references.as_slice().get(reference as usize)?;
    is_first(filled.flow, filled.link)
}

/// The number of a claimed resource in its pool.
fn claimed_number(site: &Site<'_>, claim: u32) -> Option<i64>
    ensures { result ≡ value_of (claim_slot (view_model site.now.model.now) site.now.number site.now.act.now claim) }
{
    let claimed = site.act.claims.as_slice().get(claim as usize)?;
    Some(i64::from(claimed.instance))
}

/// A field of a claimed resource.
fn claimed_field(site: &Site<'_>, claim: u32, field: u32) -> Option<i64>
    ensures { result ≡ value_of (claim_field_slot (view_model site.now.model.now) site.now.number site.now.act.now claim field) }
{
    let claimed = site.act.claims.as_slice().get(claim as usize)?;
    claimed.values.as_slice().get(field as usize).copied()
}

/// A field of the action.
fn own_field(site: &Site<'_>, field: u32) -> Option<i64>
    ensures { result ≡ value_of (act_slot (view_model site.now.model.now) site.now.scenario.now site.now.number site.now.act.now (Own field)) }
{
    site.act.fields.as_slice().get(field as usize).copied()
}

/// The value of a slot where the locals have these values. A slot that a body has none of has no value.
pub(crate) fn slot_value(
    site: &Site<'_>,
    turns: &Turns<'_>,
    locals: &[i64],
    slot: &Slot,
) -> Option<i64>
    ensures { result ≡ slot_value_of (place_of site.now turns.now) locals.now (view_slot slot.now) }
{
    match slot {
        Slot::Local { local } => locals.get(*local as usize).copied(),
        Slot::Index { level } => Some(i64::from(turns.index(*level)?)),
        Slot::Own { field } => own_field(site, *field),
        Slot::Object { reference, field } => object_field(site, *reference, *field),
        Slot::First { reference } => first_truth(site, *reference),
        Slot::ClaimId { claim } => claimed_number(site, *claim),
        Slot::ClaimField { claim, field } => claimed_field(site, *claim, *field),
        Slot::Prev { .. } => None,
        Slot::IsFirst => None,
        Slot::Id => None,
        Slot::Through { .. } => None,
        Slot::Outer { .. } => None,
    }
}
