//! What is known of flow objects.
ghost use Rattle.std.specs.Prelude.{◌≡◌, ℕ, Some, slice_get};
ghost use Rattle.std.specs.Option.{option_map};
ghost use Rattle.pst_model.specs.ModelView.{view_model};
ghost use Rattle.pst_scen.specs.Scenarios.{reference_at};
ghost use Rattle.pst_legal.specs.Types.{is_output};
ghost use Rattle.pst_legal.specs.Standing.{unread_truth};
ghost use Rattle.pst_legal.specs.Slots.{first_values, first_slot, written_slot, output_values, linked_slot, flow_slot, is_source_first, initial_by, initial_slot};
ghost use Rattle.pst_known.specs.Known.{known_of, seen};

use crate::known::{Known, open, read_or};
use crate::scene::Scene;
use crate::spans::pool_span;
use pst_expr::Span;
use pst_model::Model;
use pst_scen::{Filled, First, Flow, Link};

// The values of a pool's first object that are read.
fn first_values(firsts: &[First], pool: u32) -> &[i64]
    ensures { result.now ≡ first_values firsts.now pool }
{
    for first in firsts {
        if first.pool == pool {
            return first.values.as_slice();
        }
    }
    &[]
}

/// A field of the first object of a pool.
pub(crate) fn first_field(scene: &Scene<'_>, pool: u32, field: u32) -> Known
    ensures { result ≡ known_of (first_slot (view_model scene.now.model.now) (seen scene.now) pool field) }
{
    read_or(
        first_values(scene.firsts, pool),
        field,
        pool_span(scene.model, pool, field),
    )
}

/// A field of the object that an output writes.
pub(crate) fn written_field(model: &Model, filled: &Filled, field: u32) -> Known
    ensures { (a r : ℕ) → result ≡ known_of (written_slot (view_model model.now) a r filled.now field) }
{
    read_or(
        filled.values.as_slice(),
        field,
        pool_span(model, filled.pool, field),
    )
}

// The values of that output that are read.
fn output_values<'a>(scene: &Scene<'a>, act: u32, reference: u32) -> &'a [i64]
    ensures { result.now ≡ output_values (reference_at scene.now.actions.now act reference) }
{
    match scene.actions.get(act as usize) {
        None => &[],
        Some(act) => match act.references.as_slice().get(reference as usize) {
            None => &[],
            Some(filled) => filled.values.as_slice(),
        },
    }
}

/// A field of the object that a link names as a source.
pub(crate) fn linked_field(scene: &Scene<'_>, pool: u32, link: Link, field: u32) -> Known
    ensures { result ≡ known_of (linked_slot (view_model scene.now.model.now) (seen scene.now) pool link field) }
{
    match link {
        Link::Nothing => open(pool_span(scene.model, pool, field)),
        Link::Initial => first_field(scene, pool, field),
        Link::Act { act, reference } => read_or(
            output_values(scene, act, reference),
            field,
            pool_span(scene.model, pool, field),
        ),
    }
}

/// Whether a reference is an output.
pub(crate) fn is_output(flow: Flow) -> bool
    ensures { result ≡ is_output flow }
{
    match flow {
        Flow::BufferOut | Flow::StreamOut | Flow::StateOut => true,
        Flow::BufferIn | Flow::StreamIn | Flow::StateIn => false,
    }
}

// A field of the object of a reference.
fn field_of(scene: &Scene<'_>, filled: &Filled, field: u32) -> Known
    ensures { (a r : ℕ) → result ≡ known_of (flow_slot (view_model scene.now.model.now) (seen scene.now) a r (Some filled.now) field) }
{
    if is_output(filled.flow) {
        written_field(scene.model, filled, field)
    } else {
        linked_field(scene, filled.pool, filled.link, field)
    }
}

/// A field of the object of the reference of that number.
pub(crate) fn object_field(
    scene: &Scene<'_>,
    references: &[Filled],
    reference: u32,
    field: u32,
) -> Known
    ensures { (a : ℕ) → result ≡ known_of (flow_slot (view_model scene.now.model.now) (seen scene.now) a reference (slice_get references.now reference) field) }
{
    match references.get(reference as usize) {
        None => Known::Lacking,
        Some(filled) => field_of(scene, filled, field),
    }
}

/// 0 or 1, it isn't known which.
pub(crate) fn unread_truth() -> Known
    ensures { result ≡ known_of unread_truth }
{
    Known::Open(Span { low: 0, high: 1 })
}

// Whether the object that a state input reads is the pool's first.
fn is_source_first(link: Link) -> Known
    ensures { result ≡ known_of (is_source_first link) }
{
    match link {
        Link::Nothing => unread_truth(),
        Link::Initial => Known::Value(1),
        Link::Act { .. } => Known::Value(0),
    }
}

// Whether the object of a reference is its pool's first.
fn initial_by(flow: Flow, link: Link) -> Known
    ensures { result ≡ known_of (initial_by flow link) }
{
    match flow {
        Flow::StateIn => is_source_first(link),
        Flow::StateOut => Known::Value(0),
        Flow::BufferIn | Flow::BufferOut | Flow::StreamIn | Flow::StreamOut => Known::Lacking,
    }
}

/// The same of the reference of that number.
pub(crate) fn initial_of(references: &[Filled], reference: u32) -> Known
    ensures { result ≡ known_of (initial_slot (slice_get references.now reference)) }
{
    match references.get(reference as usize) {
        None => Known::Lacking,
        Some(filled) => initial_by(filled.flow, filled.link),
    }
}
