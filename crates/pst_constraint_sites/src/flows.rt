//! What slots of references stand for.
ghost use Rattle.std.specs.Prelude.{◌≡◌, Some, slice_get};
ghost use Rattle.pst_constraint_sites.specs.Senses.{linked_sense, flow_sense, first_sense_of, initial_by, initial_sense, act_sense, output_sense, resource_sense, first_object_sense};
ghost use Rattle.pst_constraint_sites.specs.Views.{sense_of};
ghost use Rattle.pst_model.specs.ConstraintTree.{view_slot};

use crate::meaning::Meaning;
use crate::parts::is_output;
use pst_blanks::Blank;
use pst_model::Slot;
use pst_scen::{Act, Filled, Flow, Link};

// A field of the object that a link names as a source.
fn linked(pool: u32, link: Link, field: u32) -> Meaning
    ensures { sense_of result ≡ linked_sense pool link field }
{
    match link {
        Link::Nothing => Meaning::Untold,
        Link::Initial => Meaning::Blank(Blank::OfFirst { pool, field }),
        Link::Act { act, reference } => Meaning::Blank(Blank::OfOutput {
            act,
            reference,
            field,
        }),
    }
}

// A field of the object of a reference.
fn field_of(act: u32, reference: u32, filled: &Filled, field: u32) -> Meaning
    ensures { sense_of result ≡ flow_sense act reference (Some filled.now) field }
{
    if is_output(filled.flow) {
        Meaning::Blank(Blank::OfOutput {
            act,
            reference,
            field,
        })
    } else {
        linked(filled.pool, filled.link, field)
    }
}

// The same of the reference of that number.
fn object_field(act: u32, references: &[Filled], reference: u32, field: u32) -> Meaning
    ensures { sense_of result ≡ flow_sense act reference (slice_get references.now reference) field }
{
    match references.get(reference as usize) {
        None => Meaning::Nothing,
        Some(filled) => field_of(act, reference, filled, field),
    }
}

// Whether the object that a state input reads is the pool's first.
fn is_source_first(link: Link) -> Meaning
    ensures { sense_of result ≡ first_sense_of link }
{
    match link {
        Link::Nothing => Meaning::Untold,
        Link::Initial => Meaning::Value(1),
        Link::Act { .. } => Meaning::Value(0),
    }
}

// Whether the object of a reference is its pool's first.
fn initial_by(flow: Flow, link: Link) -> Meaning
    ensures { sense_of result ≡ initial_by flow link }
{
    match flow {
        Flow::StateIn => is_source_first(link),
        Flow::StateOut => Meaning::Value(0),
        Flow::BufferIn | Flow::BufferOut | Flow::StreamIn | Flow::StreamOut => Meaning::Nothing,
    }
}

// The same of the reference of that number.
fn initial_of(references: &[Filled], reference: u32) -> Meaning
    ensures { sense_of result ≡ initial_sense (slice_get references.now reference) }
{
    match references.get(reference as usize) {
        None => Meaning::Nothing,
        Some(filled) => initial_by(filled.flow, filled.link),
    }
}

/// What belongs to an atomic action.
pub(crate) fn act_meaning(number: u32, act: &Act, slot: &Slot) -> Meaning
    ensures { sense_of result ≡ act_sense number act.now (view_slot slot.now) }
{
    match slot {
        Slot::Own { field } => Meaning::Blank(Blank::OfAct {
            act: number,
            field: *field,
        }),
        Slot::Object { reference, field } => {
            object_field(number, act.references.as_slice(), *reference, *field)
        }
        Slot::First { reference } => initial_of(act.references.as_slice(), *reference),
        Slot::ClaimId { claim } => Meaning::Blank(Blank::Instance {
            act: number,
            claim: *claim,
        }),
        Slot::ClaimField { claim, field } => Meaning::Blank(Blank::OfClaim {
            act: number,
            claim: *claim,
            field: *field,
        }),
        _ => Meaning::Nothing,
    }
}

/// What belongs to the object that an output writes.
pub(crate) fn output_meaning(act: u32, reference: u32, filled: &Filled, slot: &Slot) -> Meaning
    ensures { sense_of result ≡ output_sense act reference filled.now (view_slot slot.now) }
{
    match slot {
        Slot::Own { field } => Meaning::Blank(Blank::OfOutput {
            act,
            reference,
            field: *field,
        }),
        Slot::Prev { field } => linked(filled.pool, filled.link, *field),
        Slot::IsFirst => Meaning::Value(0),
        _ => Meaning::Nothing,
    }
}

/// What belongs to the resource of a claim.
pub(crate) fn resource_meaning(act: u32, claim: u32, slot: &Slot) -> Meaning
    ensures { sense_of result ≡ resource_sense act claim (view_slot slot.now) }
{
    match slot {
        Slot::Own { field } => Meaning::Blank(Blank::OfClaim {
            act,
            claim,
            field: *field,
        }),
        Slot::Id => Meaning::Blank(Blank::Instance { act, claim }),
        _ => Meaning::Nothing,
    }
}

/// What belongs to the first object of a pool.
pub(crate) fn first_object_meaning(pool: u32, slot: &Slot) -> Meaning
    ensures { sense_of result ≡ first_object_sense pool (view_slot slot.now) }
{
    match slot {
        Slot::Own { field } => Meaning::Blank(Blank::OfFirst {
            pool,
            field: *field,
        }),
        Slot::IsFirst => Meaning::Value(1),
        _ => Meaning::Nothing,
    }
}
