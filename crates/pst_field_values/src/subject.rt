//! The action whose fields are read, and where the constraints stand that rest on them.
ghost use Rattle.std.specs.Prelude.{◌≡◌, Some, IfSome, IfOk};
ghost use Rattle.std.specs.Option.{option_map};
ghost use Rattle.pst_model.specs.ConstraintTree.{Own, view_slot};
ghost use Rattle.pst_model.specs.ModelView.{view_model};
ghost use Rattle.pst_legal.specs.Slots.{compound_at};
ghost use Rattle.pst_field_values.specs.Fields.{count_of, field_count};
ghost use Rattle.pst_field_values.specs.Subjects.{IsBehind, IsFieldInline, IsFieldAt, IsHandle, Leads, IsReached};

use pst_base::NoMemory;
use pst_known::{Scene, node_behind};
use pst_model::{Model, Slot, Step};
use pst_refusals::Stated;
use pst_scen::{Fill, Node};
use std::alloc::Global;

/// The compound action of a node whose fields are being read, and the action round it.
#[derive(Clone, Copy)]
pub(crate) struct Subject {
    /// Its node.
    pub(crate) node: usize,
    /// How many fields it has.
    pub(crate) fields: usize,
    /// The node of the action in whose activity it is traversed.
    pub(crate) top: usize,
    /// The handle by which that action traverses it, if by one.
    pub(crate) handle: Option<u32>,
}

/// Where a constraint stands.
#[derive(Drop)]
pub(crate) enum Position {
    /// At the action itself.
    Itself,
    /// At its traversal, in turns of these numbers.
    Traversal { indices: Vec<u32> },
    /// At the action round it.
    Around,
}

// The field that a slot of an action is.
fn own_field(slot: &Slot) -> Option<u32>
    ensures { IfSome result (λ field. view_slot slot.now ≡ Own field) }
{
    match slot {
        Slot::Own { field } => Some(*field),
        _ => None,
    }
}

// Whether the action is traversed by this handle.
fn is_by(subject: &Subject, handle: u32) -> bool
    ensures { IsHandle subject.now handle result }
{
    match subject.handle {
        None => false,
        Some(own) => own == handle,
    }
}

// The field of the action that a slot of the action round it is.
fn field_behind(subject: &Subject, slot: &Slot) -> Option<u32>
    ensures { IfSome result (λ field. IsBehind subject.now (view_slot slot.now) field) }
{
    match slot {
        Slot::Through { handle, slot } => {
            if is_by(subject, *handle) {
                return own_field(slot);
            }
            None
        }
        _ => None,
    }
}

// The field of the action that a slot of an inline constraint at its traversal is.
fn field_in(subject: &Subject, slot: &Slot) -> Option<u32>
    ensures { IfSome result (λ field. IsFieldInline subject.now (view_slot slot.now) field) }
{
    match slot {
        Slot::Outer { slot } => field_behind(subject, slot),
        _ => own_field(slot),
    }
}

/// The field of the action that a slot of a constraint there is.
pub(crate) fn field_of(subject: &Subject, position: &Position, slot: &Slot) -> Option<u32>
    ensures { IfSome result (λ field. IsFieldAt subject.now position.now (view_slot slot.now) field) }
{
    match position {
        Position::Itself => own_field(slot),
        Position::Traversal { .. } => field_in(subject, slot),
        Position::Around => field_behind(subject, slot),
    }
}

/// Whether one of the slots of a constraint there is a field of the action.
pub(crate) fn is_about(subject: &Subject, position: &Position, slots: &[Slot]) -> bool {
    for slot in slots {
        if field_of(subject, position, slot).is_some() {
            return true;
        }
    }
    false
}

/// The type of the compound action of a node.
pub(crate) fn compound_at(nodes: &[Node], n: usize) -> Option<u32>
    ensures { result ≡ compound_at nodes.now n }
{
    match &nodes.get(n)?.fill {
        Fill::Compound { action, .. } => Some(*action),
        _ => None,
    }
}

// How many fields an action type has.
fn count_in(model: &Model, action: u32) -> usize
    ensures { result ≡ count_of (view_model model.now) (Some action) }
{
    match model.actions.get(action as usize) {
        None => 0,
        Some(kind) => kind.fields.len(),
    }
}

// How many fields the compound action of a node has.
fn field_count(model: &Model, nodes: &[Node], n: usize) -> usize
    ensures { result ≡ field_count (view_model model.now) nodes.now n }
{
    match compound_at(nodes, n) {
        None => 0,
        Some(action) => count_in(model, action),
    }
}

// The handle by which the action of a node traverses another one.
fn handle_in(step: &Step) -> Option<u32> {
    match step {
        Step::Traverse { handle, .. } => *handle,
        _ => None,
    }
}

// The handle, where it leads from one node to the other.
fn leading(
    alloc: Global,
    scene: &Scene<'_>,
    top: usize,
    node: usize,
    handle: Option<u32>,
) -> Result<Option<u32>, NoMemory>
    ensures { IfOk result (λ found. Leads (view_model scene.now.model.now) scene.now.nodes.now top node found) }
{
    let Some(handle) = handle else {
        return Ok(None);
    };
    match node_behind(alloc, scene, top, handle)? {
        None => Ok(None),
        Some(other) => {
            if other == node {
                return Ok(Some(handle));
            }
            Ok(None)
        }
    }
}

/// The action of a node, which stands for this statement.
pub(crate) fn subject_of(
    alloc: Global,
    scene: &Scene<'_>,
    node: usize,
    stated: &Option<Stated<'_>>,
) -> Result<Subject, NoMemory>
    ensures reached { IfOk result (λ subject. IsReached (view_model scene.now.model.now) scene.now.nodes.now subject) }
    ensures node { IfOk result (λ subject. subject.node ≡ node) }
    ensures top { IfOk result (λ subject. IfSome stated.now (λ x. subject.top ≡ x.top)) }
{
    let fields = field_count(scene.model, scene.nodes, node);
    match stated {
        None => Ok(Subject {
            node,
            fields,
            top: node,
            handle: None,
        }),
        Some(found) => {
            let handle = leading(alloc, scene, found.top, node, handle_in(found.step))?;
            Ok(Subject {
                node,
                fields,
                top: found.top,
                handle,
            })
        }
    }
}
