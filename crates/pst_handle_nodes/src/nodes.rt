//! The nodes of handles.
ghost use Rattle.std.specs.Prelude.{◌≡◌, ◌≤◌, IfOk, drop, length, slice_get, true};
ghost use Rattle.pst_model.specs.ModelView.{view_model};
ghost use Rattle.pst_legal.specs.Statements.{children_of, node_on};
ghost use Rattle.pst_legal.specs.Slots.{node_behind};
ghost use Rattle.pst_scen.specs.Tree.{is_parent};
ghost use Rattle.pst_handle_nodes.specs.Children.{children_from, names_lower, are_behind};

use crate::ways::way_of;
use pst_base::NoMemory;
use pst_model::Model;
use pst_scen::{Fill, Node};
use std::alloc::Global;

fn is_in(node: &Node, parent: usize) -> bool
    ensures { result ≡ is_parent parent node.now.parent }
{
    match node.parent {
        Some(other) => other as usize == parent,
        None => false,
    }
}

// Whether a node of that number names a node before it as its parent, or none.
fn names_lower(node: &Node, number: usize) -> bool
    ensures { result ≡ names_lower number node.now.parent }
{
    match node.parent {
        Some(parent) => (parent as usize) < number,
        None => true,
    }
}

/// Whether each node stands behind its parent.
pub fn are_behind(nodes: &[Node]) -> bool
    ensures { result ≡ are_behind 0 nodes.now }
{
    let mut number = 0;
    for node in nodes {
        if !names_lower(node, number) {
            return false;
        }
        number += 1;
    }
    true
}

// The number from which on the children of a node stand.
fn first_place(nodes: &[Node], behind: bool, parent: usize) -> usize
    requires { behind ≡ true → are_behind 0 nodes.now ≡ true }
    ensures within { result ≤ length nodes.now }
    ensures children { children_from parent result (drop result nodes.now) ≡ children_of nodes.now parent }
{
    if behind && parent < nodes.len() {
        return parent + 1;
    }
    0
}

// The child of that place. `behind`: each node is known to stand behind its parent.
fn child(nodes: &[Node], behind: bool, parent: usize, index: usize) -> Option<usize>
    requires { behind ≡ true → are_behind 0 nodes.now ≡ true }
    ensures { result ≡ slice_get (children_of nodes.now parent) index }
{
    let first = first_place(nodes, behind, parent);
    let mut left = index;
    for number in first..nodes.len() {
        if is_in(&nodes[number], parent) {
            if left == 0 {
                return Some(number);
            }
            left -= 1;
        }
    }
    None
}

// The node at the end of a way down from a node.
fn node_on(nodes: &[Node], behind: bool, top: usize, way: &[usize]) -> Option<usize>
    requires { behind ≡ true → are_behind 0 nodes.now ≡ true }
    ensures { result ≡ node_on nodes.now top way.now }
{
    let mut node = top;
    for index in way {
        match child(nodes, behind, node, *index) {
            Some(below) => node = below,
            None => return None,
        }
    }
    Some(node)
}

/// The node of a handle of the compound action of a node. `behind`: each node is known to stand behind its parent. Then
/// for each step of the way down to the handle only the nodes from a parent to its child are looked through, else all up
/// to that child.
pub fn node_behind(
    alloc: Global,
    model: &Model,
    nodes: &[Node],
    behind: bool,
    top: usize,
    handle: u32,
) -> Result<Option<usize>, NoMemory>
    requires { behind ≡ true → are_behind 0 nodes.now ≡ true }
    ensures { IfOk result (λ node. node ≡ node_behind (view_model model.now) nodes.now top handle) }
{
    let Some(node) = nodes.get(top) else {
        return Ok(None);
    };
    match &node.fill {
        Fill::Compound { action, .. } => match way_of(alloc, model, *action as usize, handle)? {
            None => Ok(None),
            Some(way) => Ok(node_on(nodes, behind, top, way.as_slice())),
        },
        _ => Ok(None),
    }
}
