//! What slots stand for at a site.
ghost use Rattle.std.specs.Prelude.{◌≡◌, IfOk, slice_get};
ghost use Rattle.std.specs.Option.{option_map};
ghost use Rattle.pst_model.specs.ConstraintTree.{view_slot};
ghost use Rattle.pst_model.specs.ModelView.{view_model};
ghost use Rattle.pst_scen.specs.Scenarios.{reference_at};
ghost use Rattle.pst_known.specs.Known.{seen};
ghost use Rattle.pst_constraint_sites.specs.Senses.{number_sense, value_sense, maybe_act_sense, compound_sense, fill_sense, maybe_fill_sense, node_sense, inline_sense, maybe_output_sense, maybe_resource_sense, sense_at};
ghost use Rattle.pst_constraint_sites.specs.Views.{view_site, sense_of};

use crate::flows::{act_meaning, first_object_meaning, output_meaning, resource_meaning};
use crate::meaning::Meaning;
use crate::site::Site;
use pst_base::NoMemory;
use pst_known::{Scene, node_behind};
use pst_model::Slot;
use pst_scen::{Act, Fill, Filled};
use std::alloc::Global;

// What belongs to the atomic action of that number.
fn maybe_act_meaning(actions: &[Act], act: u32, slot: &Slot) -> Meaning
    ensures { sense_of result ≡ maybe_act_sense act (slice_get actions.now act) (view_slot slot.now) }
{
    match actions.get(act as usize) {
        None => Meaning::Nothing,
        Some(found) => act_meaning(act, found, slot),
    }
}

// The value of a field of a compound action.
fn field_value(fields: &[i64], field: u32) -> Meaning
    ensures { sense_of result ≡ value_sense (slice_get fields.now field) }
{
    match fields.get(field as usize) {
        None => Meaning::Untold,
        Some(value) => Meaning::Value(*value),
    }
}

// What belongs to a compound action, but for what stands behind its handles.
fn compound_meaning(fields: &[i64], slot: &Slot) -> Meaning
    ensures { sense_of result ≡ compound_sense fields.now (view_slot slot.now) }
{
    match slot {
        Slot::Own { field } => field_value(fields, *field),
        _ => Meaning::Nothing,
    }
}

// What belongs to the action of a node of this fill.
fn fill_meaning(scene: &Scene<'_>, fill: &Fill, slot: &Slot) -> Meaning
    ensures { sense_of result ≡ fill_sense (seen scene.now) fill.now (view_slot slot.now) }
{
    match fill {
        Fill::Leaf { act } => maybe_act_meaning(scene.actions, *act, slot),
        Fill::Compound { fields, .. } => compound_meaning(fields.as_slice(), slot),
        _ => Meaning::Nothing,
    }
}

// What belongs to the action of the node of that number, but for what stands behind its handles.
fn maybe_fill_meaning(scene: &Scene<'_>, node: usize, slot: &Slot) -> Meaning
    ensures { sense_of result ≡ maybe_fill_sense (seen scene.now) (slice_get scene.now.nodes.now node) (view_slot slot.now) }
{
    match scene.nodes.get(node) {
        None => Meaning::Nothing,
        Some(found) => fill_meaning(scene, &found.fill, slot),
    }
}

// What belongs to the action of a node.
fn node_meaning(
    alloc: Global,
    scene: &Scene<'_>,
    node: usize,
    slot: &Slot,
) -> Result<Meaning, NoMemory>
    ensures { IfOk result (λ found. sense_of found ≡ node_sense (view_model scene.now.model.now) (seen scene.now) node (view_slot slot.now)) }
{
    match slot {
        Slot::Through { handle, slot } => {
            match node_behind(alloc, scene, node, *handle)? {
                None => Ok(Meaning::Untold),
                Some(behind) => node_meaning(alloc, scene, behind, slot),
            }
        }
        _ => Ok(maybe_fill_meaning(scene, node, slot)),
    }
}

// The number of a turn round a traversal.
fn index_of(indices: &[u32], level: u32) -> Meaning
    ensures { sense_of result ≡ number_sense (slice_get indices.now level) }
{
    match indices.get(level as usize) {
        None => Meaning::Nothing,
        Some(index) => Meaning::Value(i64::from(*index)),
    }
}

// What belongs to a traversal in the activity of the compound action of node `top`.
fn inline_meaning(
    alloc: Global,
    scene: &Scene<'_>,
    node: usize,
    top: usize,
    indices: &[u32],
    slot: &Slot,
) -> Result<Meaning, NoMemory>
    ensures { IfOk result (λ found. sense_of found ≡ inline_sense (view_model scene.now.model.now) (seen scene.now) node top indices.now (view_slot slot.now)) }
{
    match slot {
        Slot::Outer { slot } => node_meaning(alloc, scene, top, slot),
        Slot::Index { level } => Ok(index_of(indices, *level)),
        _ => node_meaning(alloc, scene, node, slot),
    }
}

// The reference of that number of the action of that number.
fn reference_at(actions: &[Act], act: u32, reference: u32) -> Option<&Filled>
    ensures { option_map (λ f. f.now) result ≡ reference_at actions.now act reference }
{
    match actions.get(act as usize) {
        None => None,
        Some(act) => act.references.as_slice().get(reference as usize),
    }
}

// What belongs to the object that an output writes.
fn maybe_output_meaning(actions: &[Act], act: u32, reference: u32, slot: &Slot) -> Meaning
    ensures { sense_of result ≡ maybe_output_sense act reference (reference_at actions.now act reference) (view_slot slot.now) }
{
    match reference_at(actions, act, reference) {
        None => Meaning::Nothing,
        Some(filled) => output_meaning(act, reference, filled, slot),
    }
}

// What belongs to the resource that a claim claims.
fn maybe_resource_meaning(actions: &[Act], act: u32, claim: u32, slot: &Slot) -> Meaning
    ensures { sense_of result ≡ maybe_resource_sense act (slice_get actions.now act) claim (view_slot slot.now) }
{
    match actions.get(act as usize) {
        None => Meaning::Nothing,
        Some(_) => resource_meaning(act, claim, slot),
    }
}

/// What a slot of a constraint stands for at a site.
pub fn meaning_at(
    alloc: Global,
    scene: &Scene<'_>,
    site: &Site,
    slot: &Slot,
) -> Result<Meaning, NoMemory>
    ensures { IfOk result (λ found. sense_of found ≡ sense_at (view_model scene.now.model.now) (seen scene.now) (view_site site.now) (view_slot slot.now)) }
{
    match site {
        Site::Node { node } => node_meaning(alloc, scene, *node, slot),
        Site::Traversal { node, top, indices } => {
            inline_meaning(alloc, scene, *node, *top, indices.as_slice(), slot)
        }
        Site::Act { act } => Ok(maybe_act_meaning(scene.actions, *act, slot)),
        Site::Output { act, reference } => Ok(maybe_output_meaning(
            scene.actions,
            *act,
            *reference,
            slot,
        )),
        Site::Claim { act, claim } => Ok(maybe_resource_meaning(scene.actions, *act, *claim, slot)),
        Site::First { pool } => Ok(first_object_meaning(*pool, slot)),
    }
}
