//! Copies of nodes.
ghost use Rattle.std.specs.Prelude.{◌≡◌, IfOk};

use crate::values::copy_values;
use pst_base::NoMemory;
use pst_scen::{Fill, Node};
use std::alloc::Global;

// The same fill.
fn copy_fill(alloc: Global, fill: &Fill) -> Result<Fill, NoMemory>
    ensures { IfOk result (λ copy. copy ≡ fill.now) }
{
    Ok(match fill {
        Fill::Compound {
            action,
            instance,
            fields,
        } => Fill::Compound {
            action: *action,
            instance: *instance,
            fields: copy_values(alloc, fields.as_slice())?,
        },
        Fill::Leaf { act } => Fill::Leaf { act: *act },
        Fill::Sequence => Fill::Sequence,
        Fill::Parallel => Fill::Parallel,
        Fill::Schedule => Fill::Schedule,
        Fill::Joined { parallel, joined } => Fill::Joined {
            parallel: *parallel,
            joined: *joined,
        },
        Fill::Select { branch } => Fill::Select { branch: *branch },
        Fill::Repeat => Fill::Repeat,
        Fill::Turn { index } => Fill::Turn { index: *index },
        Fill::If { yes } => Fill::If { yes: *yes },
        Fill::Match { arm } => Fill::Match { arm: *arm },
    })
}

// The same node.
fn copy_node(alloc: Global, node: &Node) -> Result<Node, NoMemory>
    ensures { IfOk result (λ copy. copy ≡ node.now) }
{
    let fill = copy_fill(alloc, &node.fill)?;
    Ok(Node {
        parent: node.parent,
        fill,
    })
}

/// The same nodes.
pub fn copy_nodes(alloc: Global, nodes: &[Node]) -> Result<Vec<Node>, NoMemory>
    ensures { IfOk result (λ copy. copy.items ≡ nodes.now) }
{
    let mut copy = Vec::new(alloc);
    for node in nodes {
        copy.push(copy_node(alloc, node)?)?;
    }
    Ok(copy)
}
