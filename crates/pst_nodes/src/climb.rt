//! Which nodes of a filled-in activity stand over a node.
ghost use Rattle.std.specs.Prelude.{◌≡◌, ◌<◌, ◌↔◌, ℕ, length, slice_get, Some, IsTrue, MatchOption};
ghost use Rattle.pst_scen.specs.Tree.{IsNode, IsChild, StandsUnder, RunsInOrder, IsSequence, IsNearestSequence};
ghost use Rattle.pst_scen.specs.Laws.{IsPreorder};
ghost use Rattle.pst_nodes.specs.Over.{IsLeafOf};

use pst_scen::{Fill, Node};

/// Whether what stands directly in the node runs one after another.
fn runs_in_order(fill: &Fill) -> bool
    ensures { IsTrue result ↔ RunsInOrder fill.now }
{
    match fill {
        Fill::Compound { .. } => true,
        Fill::Sequence => true,
        Fill::Repeat => true,
        _ => false,
    }
}

/// Whether the node is a sequence.
pub(crate) fn is_sequence(nodes: &[Node], n: usize) -> bool
    requires { n < length nodes.now }
    ensures { IsTrue result ↔ IsSequence nodes.now n }
{
    runs_in_order(&nodes[n].fill)
}

/// Whether the node is the leaf of the action.
fn is_leaf_of(fill: &Fill, act: u32) -> bool
    ensures { IsTrue result ↔ fill.now ≡ Fill.Leaf act }
{
    match fill {
        Fill::Leaf { act: other } => *other == act,
        _ => false,
    }
}

/// The action's leaf, found by looking at all nodes.
fn search_leaf(nodes: &[Node], act: u32) -> Option<usize>
    ensures { MatchOption result ((n : ℕ) → IsLeafOf nodes.now act n → ⊥) (IsLeafOf nodes.now act) }
{
    for n in 0..nodes.len() {
        if is_leaf_of(&nodes[n].fill, act) {
            return Some(n);
        }
    }
    None
}

/// Whether the node is there, and is the action's leaf.
fn is_leaf_at(nodes: &[Node], n: usize, act: u32) -> bool
    ensures { IsTrue result → IsLeafOf nodes.now act n }
{
    n < nodes.len() && is_leaf_of(&nodes[n].fill, act)
}

/// The action's leaf. It is looked for at the given node first.
pub(crate) fn leaf_of(nodes: &[Node], node: Option<u32>, act: u32) -> Option<usize>
    ensures { MatchOption result ((n : ℕ) → IsLeafOf nodes.now act n → ⊥) (IsLeafOf nodes.now act) }
{
    if let Some(n) = node {
        if is_leaf_at(nodes, n as usize, act) {
            return Some(n as usize);
        }
    }
    search_leaf(nodes, act)
}

/// The node directly in the top one that is the given node or stands over it.
pub(crate) fn child_over(nodes: &[Node], top: usize, n: usize) -> Option<usize>
    requires preorder { IsPreorder nodes.now }
    requires within { n < length nodes.now }
    ensures { MatchOption result ((child : ℕ) → IsChild nodes.now child top → StandsUnder nodes.now child n → ⊥) (λ child. IsChild nodes.now child top × StandsUnder nodes.now child n) }
{
    let mut at = n;
    'parents: while let Some(parent) = nodes[at].parent {
        if parent as usize == top {
            return Some(at);
        }
        at = parent as usize;
    }
    None
}

/// The nearest sequence round the node.
pub(crate) fn nearest_sequence(nodes: &[Node], n: usize) -> Option<usize>
    requires preorder { IsPreorder nodes.now }
    requires within { n < length nodes.now }
    ensures { MatchOption result ((top : ℕ) → IsNearestSequence nodes.now top n → ⊥) (λ top. IsNearestSequence nodes.now top n) }
{
    let mut at = n;
    'parents: while let Some(parent) = nodes[at].parent {
        if is_sequence(nodes, parent as usize) {
            return Some(parent as usize);
        }
        at = parent as usize;
    }
    None
}
