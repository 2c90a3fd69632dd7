//! From the least to the greatest value of each blank.
ghost use Rattle.std.specs.Prelude.{◌≡◌, IfOk, map, slice_get};
ghost use Rattle.pst_model.specs.ConstraintTree.{view_slot};
ghost use Rattle.pst_model.specs.ModelView.{view_model};
ghost use Rattle.pst_model.specs.Sound.{IsSound};
ghost use Rattle.pst_scen.specs.Scenarios.{reference_at};
ghost use Rattle.pst_legal.specs.Standing.{bound_of};
ghost use Rattle.pst_legal.specs.Slots.{maybe_act_slot};
ghost use Rattle.pst_blanks.specs.Blanks.{read_blank, blank_of};
ghost use Rattle.pst_known.specs.Known.{seen};
ghost use Rattle.pst_refusals.specs.Failing.{bound_in};
ghost use Rattle.pst_constraint_sites.specs.Sites.{maybe_output_slot, maybe_resource_slot};
ghost use Rattle.pst_written_constraints.specs.Spans.{blank_bound};

use pst_base::NoMemory;
use pst_blanks::{Blank, Place};
use pst_expr::Span;
use pst_known::{Known, Scene, act_slot, first_object_slot, output_slot, resource_slot};
use pst_model::Slot;
use std::alloc::Global;

// The span of what is known.
fn span_in(known: Known) -> Option<Span>
    ensures { result ≡ bound_in known }
{
    match known {
        Known::Value(value) => Some(Span {
            low: value,
            high: value,
        }),
        Known::Open(span) => Some(span),
        Known::Lacking => None,
    }
}

// Of what belongs to the resource of a claim.
fn claim_span(scene: &Scene<'_>, act: u32, claim: u32, slot: &Slot) -> Option<Span>
    requires { IsSound (view_model scene.now.model.now) }
    ensures { result ≡ bound_of (maybe_resource_slot (view_model scene.now.model.now) act (slice_get scene.now.actions.now act) claim (view_slot slot.now)) }
{
    match scene.actions.get(act as usize) {
        None => None,
        Some(act) => span_in(resource_slot(scene.model, act, claim, slot)),
    }
}

// Of what belongs to an action.
fn act_span(scene: &Scene<'_>, act: u32, slot: &Slot) -> Option<Span>
    requires { IsSound (view_model scene.now.model.now) }
    ensures { result ≡ bound_of (maybe_act_slot (view_model scene.now.model.now) (seen scene.now) act (slice_get scene.now.actions.now act) (view_slot slot.now)) }
{
    match scene.actions.get(act as usize) {
        None => None,
        Some(act) => span_in(act_slot(scene, act, slot)),
    }
}

// Of what belongs to what an output writes.
fn output_span(scene: &Scene<'_>, act: u32, reference: u32, slot: &Slot) -> Option<Span>
    ensures { result ≡ bound_of (maybe_output_slot (view_model scene.now.model.now) (seen scene.now) act reference (reference_at scene.now.actions.now act reference) (view_slot slot.now)) }
{
    match scene.actions.get(act as usize) {
        None => None,
        Some(act) => match act.references.as_slice().get(reference as usize) {
            None => None,
            Some(filled) => span_in(output_slot(scene, filled, slot)),
        },
    }
}

// Of a blank.
fn span_of(scene: &Scene<'_>, blank: Blank) -> Option<Span>
    requires { IsSound (view_model scene.now.model.now) }
    ensures { result ≡ blank_bound (view_model scene.now.model.now) (seen scene.now) (read_blank blank) }
{
    match blank {
        Blank::Instance { act, claim } => claim_span(scene, act, claim, &Slot::Id),
        Blank::OfFirst { pool, field } => {
            span_in(first_object_slot(scene, pool, &Slot::Own { field }))
        }
        Blank::OfAct { act, field } => act_span(scene, act, &Slot::Own { field }),
        Blank::OfOutput {
            act,
            reference,
            field,
        } => output_span(scene, act, reference, &Slot::Own { field }),
        Blank::OfClaim { act, claim, field } => {
            claim_span(scene, act, claim, &Slot::Own { field })
        }
    }
}

/// From the least to the greatest value of each of these blanks, nothing where it has none.
pub(crate) fn spans_of(
    alloc: Global,
    scene: &Scene<'_>,
    places: &[Place],
) -> Result<Vec<Option<Span>>, NoMemory>
    requires { IsSound (view_model scene.now.model.now) }
    ensures { IfOk result (λ spans. spans.items ≡ map (blank_bound (view_model scene.now.model.now) (seen scene.now)) (map blank_of places.now)) }
{
    let mut spans = Vec::new(alloc);
    for place in places {
        spans.push(span_of(scene, place.blank))?;
    }
    Ok(spans)
}
