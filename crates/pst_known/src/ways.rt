//! What handles lead to.
ghost use Rattle.std.specs.Prelude.{◌≡◌, IfOk};
ghost use Rattle.pst_model.specs.ModelView.{view_model};
ghost use Rattle.pst_legal.specs.Slots.{node_behind, type_behind, traversed_type, compound_at};

use crate::scene::Scene;
use pst_base::NoMemory;
use pst_handle_nodes::node_behind as node_of;
use pst_model::{Content, Model};
use pst_scen::{Fill, Node};
use std::alloc::Global;

/// The node of a handle of the compound action of a node.
pub fn node_behind(
    alloc: Global,
    scene: &Scene<'_>,
    top: usize,
    handle: u32,
) -> Result<Option<usize>, NoMemory>
    ensures { IfOk result (λ node. node ≡ node_behind (view_model scene.now.model.now) scene.now.nodes.now top handle) }
{
    node_of(alloc, scene.model, scene.nodes, true, top, handle)
}

/// The action type that a handle of a compound action type traverses.
pub(crate) fn traversed_type(model: &Model, action: u32, handle: u32) -> Option<u32>
    ensures { result ≡ traversed_type (view_model model.now) action handle }
{
    match &model.actions.get(action as usize)?.content {
        Content::Atomic(_) => None,
        Content::Compound(activity) => activity.handles.get(handle as usize).copied(),
    }
}

// The type of a compound action.
fn compound_at(nodes: &[Node], n: usize) -> Option<u32>
    ensures { result ≡ compound_at nodes.now n }
{
    match &nodes.get(n)?.fill {
        Fill::Compound { action, .. } => Some(*action),
        _ => None,
    }
}

/// The type of a handle of the compound action of a node.
pub(crate) fn type_behind(model: &Model, nodes: &[Node], n: usize, handle: u32) -> Option<u32>
    ensures { result ≡ type_behind (view_model model.now) nodes.now n handle }
{
    traversed_type(model, compound_at(nodes, n)?, handle)
}
