//! The bounds of what constraints speak of.
ghost use Rattle.std.specs.Prelude.{◌≡◌, ◌++◌, IfOk, OnOk, map};
ghost use Rattle.pst_model.specs.ConstraintTree.{Own, view_slot};
ghost use Rattle.pst_model.specs.ModelView.{view_model};
ghost use Rattle.pst_model.specs.Sound.{IsSound};
ghost use Rattle.pst_legal.specs.Standing.{bound_of};
ghost use Rattle.pst_legal.specs.Slots.{node_slot as node_standing};
ghost use Rattle.pst_known.specs.Known.{known_of, seen};
ghost use Rattle.pst_refusals.specs.Failing.{bound_in};
ghost use Rattle.pst_constraint_sites.specs.Sites.{slot_at};
ghost use Rattle.pst_field_values.specs.Quantities.{own_quantities, quantity_bounds};
ghost use Rattle.pst_field_values.specs.Subjects.{site_of};

use crate::subject::{Position, Subject};
use pst_base::NoMemory;
use pst_expr::Span;
use pst_known::{Known, Scene, inline_slot, node_slot};
use pst_model::Slot;
use std::alloc::Global;

// The span of what is known.
fn span_in(known: Known) -> Option<Span>
    ensures { result ≡ bound_in known }
{
    match known {
        Known::Value(value) => Some(Span {
            low: value,
            high: value,
        }),
        Known::Open(span) => Some(span),
        Known::Lacking => None,
    }
}

// What is known of a slot there.
fn known_at(
    alloc: Global,
    scene: &Scene<'_>,
    subject: &Subject,
    position: &Position,
    slot: &Slot,
) -> Result<Known, NoMemory>
    requires { IsSound (view_model scene.now.model.now) }
    ensures { IfOk result (λ known. known ≡ known_of (slot_at (view_model scene.now.model.now) (seen scene.now) (site_of subject.now position.now) (view_slot slot.now))) }
{
    match position {
        Position::Itself => node_slot(alloc, scene, subject.node, slot),
        Position::Traversal { indices } => inline_slot(
            alloc,
            scene,
            subject.node,
            subject.top,
            indices.as_slice(),
            slot,
        ),
        Position::Around => node_slot(alloc, scene, subject.top, slot),
    }
}

// The bounds of a slot there.
fn bound_at(
    alloc: Global,
    scene: &Scene<'_>,
    subject: &Subject,
    position: &Position,
    slot: &Slot,
) -> Result<Option<Span>, NoMemory>
    requires { IsSound (view_model scene.now.model.now) }
    ensures { IfOk result (λ bound. bound ≡ bound_of (slot_at (view_model scene.now.model.now) (seen scene.now) (site_of subject.now position.now) (view_slot slot.now))) }
{
    let known = known_at(alloc, scene, subject, position, slot)?;
    Ok(span_in(known))
}

/// Adds the bounds of slots there.
pub(crate) fn add_bounds(
    alloc: Global,
    scene: &Scene<'_>,
    subject: &Subject,
    position: &Position,
    slots: &[Slot],
    bounds: &mut Vec<Option<Span>>,
) -> Result<(), NoMemory>
    requires { IsSound (view_model scene.now.model.now) }
    ensures { OnOk result (bounds.new.items ≡ bounds.old.items ++ map (λ slot. bound_of (slot_at (view_model scene.now.model.now) (seen scene.now) (site_of subject.now position.now) slot)) (map view_slot slots.now)) }
{
    for slot in slots {
        let bound = bound_at(alloc, scene, subject, position, slot)?;
        bounds.push(bound)?;
    }
    Ok(())
}

// The number, where it fits 32 bits.
fn narrow(number: usize) -> Result<u32, NoMemory>
    ensures { IfOk result (λ n. n ≡ number) }
{
    match u32::try_from(number) {
        Ok(number) => Ok(number),
        Err(_) => Err(NoMemory),
    }
}

// The bounds of a field of the action of a node.
fn field_bound(
    alloc: Global,
    scene: &Scene<'_>,
    node: usize,
    field: usize,
) -> Result<Option<Span>, NoMemory>
    requires { IsSound (view_model scene.now.model.now) }
    ensures { IfOk result (λ bound. bound ≡ bound_of (node_standing (view_model scene.now.model.now) (seen scene.now) node (Own field))) }
{
    let field = narrow(field)?;
    let known = node_slot(alloc, scene, node, &Slot::Own { field })?;
    Ok(span_in(known))
}

/// The bounds of the fields of the action.
#[tactic(auto, using(crate::proofs::Tables::own_more))]
pub(crate) fn field_bounds(
    alloc: Global,
    scene: &Scene<'_>,
    subject: &Subject,
) -> Result<Vec<Option<Span>>, NoMemory>
    requires { IsSound (view_model scene.now.model.now) }
    ensures { IfOk result (λ bounds. bounds.items ≡ quantity_bounds (view_model scene.now.model.now) (seen scene.now) (own_quantities subject.now.node subject.now.fields)) }
{
    let mut bounds = Vec::new(alloc);
    for field in 0..subject.fields {
        let bound = field_bound(alloc, scene, subject.node, field)?;
        bounds.push(bound)?;
    }
    Ok(bounds)
}
