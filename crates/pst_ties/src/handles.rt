//! The atomic actions behind handles.
ghost use Rattle.std.specs.Prelude.{◌≡◌, IfOk, true};
ghost use Rattle.pst_model.specs.ModelView.{view_model};
ghost use Rattle.pst_legal.specs.Binds.{act_in, act_behind};
ghost use Rattle.pst_handle_nodes.specs.Children.{are_behind};

use pst_base::NoMemory;
use pst_handle_nodes::node_behind;
use pst_model::Model;
use pst_scen::{Fill, Node};
use std::alloc::Global;

fn act_in(fill: &Fill) -> Option<usize>
    ensures { result ≡ act_in fill.now }
{
    match fill {
        Fill::Leaf { act } => Some(*act as usize),
        _ => None,
    }
}

/// The atomic action behind a handle of the compound action of a node. `behind`: each node is
/// known to stand behind its parent.
pub(crate) fn act_behind(
    alloc: Global,
    model: &Model,
    nodes: &[Node],
    behind: bool,
    top: usize,
    handle: u32,
) -> Result<Option<usize>, NoMemory>
    requires { behind ≡ true → are_behind 0 nodes.now ≡ true }
    ensures { IfOk result (λ act. act ≡ act_behind (view_model model.now) nodes.now top handle) }
{
    match node_behind(alloc, model, nodes, behind, top, handle)? {
        None => Ok(None),
        Some(number) => match nodes.get(number) {
            None => Ok(None),
            Some(node) => Ok(act_in(&node.fill)),
        },
    }
}
