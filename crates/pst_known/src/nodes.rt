//! What is known of slots of the actions of nodes.
ghost use Rattle.std.specs.Prelude.{◌≡◌, ℤ, List, Some, IfOk, slice_get};
ghost use Rattle.pst_model.specs.ConstraintTree.{view_slot};
ghost use Rattle.pst_model.specs.ModelView.{view_model};
ghost use Rattle.pst_model.specs.Sound.{IsSound};
ghost use Rattle.pst_legal.specs.Standing.{number_or_lacking};
ghost use Rattle.pst_legal.specs.Slots.{unread_slot, compound_slot, maybe_act_slot, fill_slot, maybe_fill_slot, node_slot, inline_slot};
ghost use Rattle.pst_known.specs.Known.{known_of, seen, unread_behind};

use crate::flows::unread_truth;
use crate::known::{Known, open, read_or};
use crate::scene::Scene;
use crate::slots::act_slot;
use crate::spans::{action_span, claim_span, reference_span};
use crate::ways::{node_behind, traversed_type, type_behind};
use pst_base::NoMemory;
use pst_expr::Span;
use pst_model::{Model, Slot};
use pst_scen::Fill;
use std::alloc::Global;

// What belongs to an action of which nothing is read, not even its instance.
fn unread_slot(model: &Model, action: u32, slot: &Slot) -> Known
    ensures { result ≡ known_of (unread_slot (view_model model.now) action (view_slot slot.now)) }
{
    match slot {
        Slot::Own { field } => open(action_span(model, action, *field)),
        Slot::Object { reference, field } => open(reference_span(
            model, action, *reference, *field,
        )),
        Slot::First { .. } => unread_truth(),
        Slot::ClaimId { .. } => Known::Open(Span { low: 0, high: 1023 }),
        Slot::ClaimField { claim, field } => open(claim_span(model, action, *claim, *field)),
        Slot::Through { handle, slot } => match traversed_type(model, action, *handle) {
            None => Known::Lacking,
            Some(kind) => unread_slot(model, kind, slot),
        },
        _ => Known::Lacking,
    }
}

// What belongs to a compound action, but for what stands behind its handles.
fn compound_slot(model: &Model, action: u32, fields: &[i64], slot: &Slot) -> Known
    ensures { result ≡ known_of (compound_slot (view_model model.now) action fields.now (view_slot slot.now)) }
{
    match slot {
        Slot::Own { field } => read_or(fields, *field, action_span(model, action, *field)),
        _ => Known::Lacking,
    }
}

// What belongs to the atomic action of that number.
fn maybe_act_slot(scene: &Scene<'_>, act: u32, slot: &Slot) -> Known
    requires { IsSound (view_model scene.now.model.now) }
    ensures { result ≡ known_of (maybe_act_slot (view_model scene.now.model.now) (seen scene.now) act (slice_get scene.now.actions.now act) (view_slot slot.now)) }
{
    match scene.actions.get(act as usize) {
        None => Known::Lacking,
        Some(act) => act_slot(scene, act, slot),
    }
}

// What belongs to the action of a node of this fill.
fn fill_slot(scene: &Scene<'_>, fill: &Fill, slot: &Slot) -> Known
    requires { IsSound (view_model scene.now.model.now) }
    ensures { result ≡ known_of (fill_slot (view_model scene.now.model.now) (seen scene.now) fill.now (view_slot slot.now)) }
{
    match fill {
        Fill::Leaf { act } => maybe_act_slot(scene, *act, slot),
        Fill::Compound { action, fields, .. } => {
            compound_slot(scene.model, *action, fields.as_slice(), slot)
        }
        _ => Known::Lacking,
    }
}

// What belongs to the action of the node of that number, but for what stands behind its handles.
fn maybe_fill_slot(scene: &Scene<'_>, n: usize, slot: &Slot) -> Known
    requires { IsSound (view_model scene.now.model.now) }
    ensures { result ≡ known_of (maybe_fill_slot (view_model scene.now.model.now) (seen scene.now) (slice_get scene.now.nodes.now n) (view_slot slot.now)) }
{
    match scene.nodes.get(n) {
        None => Known::Lacking,
        Some(node) => fill_slot(scene, &node.fill, slot),
    }
}

// What belongs to what a handle traverses that isn't read yet.
fn unread_behind(scene: &Scene<'_>, n: usize, handle: u32, slot: &Slot) -> Known
    ensures { result ≡ known_of (unread_behind (view_model scene.now.model.now) (seen scene.now) n handle (view_slot slot.now)) }
{
    match type_behind(scene.model, scene.nodes, n, handle) {
        None => Known::Lacking,
        Some(kind) => unread_slot(scene.model, kind, slot),
    }
}

/// What belongs to the action of a node. Behind a handle stands what belongs to the action that the
/// handle traverses.
pub fn node_slot(alloc: Global, scene: &Scene<'_>, n: usize, slot: &Slot) -> Result<Known, NoMemory>
    requires { IsSound (view_model scene.now.model.now) }
    ensures { IfOk result (λ known. known ≡ known_of (node_slot (view_model scene.now.model.now) (seen scene.now) n (view_slot slot.now))) }
{
    match slot {
        Slot::Through { handle, slot } => {
            match node_behind(alloc, scene, n, *handle)? {
                None => Ok(unread_behind(scene, n, *handle, slot)),
                Some(node) => node_slot(alloc, scene, node, slot),
            }
        }
        _ => Ok(maybe_fill_slot(scene, n, slot)),
    }
}

// The number of a turn round the traversal.
fn index_of(indices: &[u32], level: u32) -> Known
    ensures { result ≡ known_of (number_or_lacking (slice_get indices.now level)) }
{
    match indices.get(level as usize) {
        None => Known::Lacking,
        Some(index) => Known::Value(i64::from(*index)),
    }
}

/// What a slot of an inline constraint stands for, at the node of the traversal in the activity of the
/// compound action of node `top`, in turns of these numbers.
pub fn inline_slot(
    alloc: Global,
    scene: &Scene<'_>,
    n: usize,
    top: usize,
    indices: &[u32],
    slot: &Slot,
) -> Result<Known, NoMemory>
    requires { IsSound (view_model scene.now.model.now) }
    ensures { IfOk result (λ known. known ≡ known_of (inline_slot (view_model scene.now.model.now) (seen scene.now) n top indices.now (view_slot slot.now))) }
{
    match slot {
        Slot::Outer { slot } => node_slot(alloc, scene, top, slot),
        Slot::Index { level } => Ok(index_of(indices, *level)),
        _ => node_slot(alloc, scene, n, slot),
    }
}
