//! Which leaves are released in a sequence, because a join form doesn't wait for them.
ghost use Rattle.std.specs.Prelude.{◌≡◌, ◌≤◌, ◌<◌, ◌↔◌, ℕ, length, IsTrue, IsBitSet, Some};
ghost use Rattle.pst_scen.specs.Tree.{branch_of, is_parent, IsNearestSequence};
ghost use Rattle.pst_scen.specs.Laws.{IsPreorder};
ghost use Rattle.pst_nodes.specs.Over.{Over, LeavesOut, IsFree};

use crate::climb::nearest_sequence;
use pst_scen::{Fill, Node};

/// Whether the node's parent is this one.
fn is_in(parent: usize, of: Option<u32>) -> bool
    ensures { result ≡ is_parent parent of }
{
    match of {
        Some(p) => parent == p as usize,
        None => false,
    }
}

/// The node's place among the branches of the block, which stands before it.
fn branch_number(nodes: &[Node], block: usize, branch: usize) -> usize
    requires preorder { IsPreorder nodes.now }
    requires order { block < branch }
    requires branch_in { branch < length nodes.now }
    ensures { result ≡ branch_of nodes.now block branch }
{
    let mut count = 0;
    for n in block + 1..branch {
        if is_in(block, nodes[n].parent) {
            count += 1;
        }
    }
    count
}

/// Whether the bit of that number is set.
fn is_set(word: u64, bit: usize) -> bool
    ensures { IsTrue result ↔ IsBitSet word bit }
{
    if bit >= 64 {
        return false;
    }
    word >> bit & 1 == 1
}

/// Whether the block has a join form and doesn't wait for the branch that the node is.
fn leaves_out(nodes: &[Node], block: usize, branch: usize) -> bool
    requires preorder { IsPreorder nodes.now }
    requires order { block < branch }
    requires branch_in { branch < length nodes.now }
    ensures { IsTrue result ↔ LeavesOut nodes.now block (branch_of nodes.now block branch) }
{
    match &nodes[block].fill {
        Fill::Joined { joined, .. } => !is_set(*joined, branch_number(nodes, block, branch)),
        _ => false,
    }
}

/// Whether the sequence is the nearest one round the node.
fn is_nearest(nodes: &[Node], sequence: usize, n: usize) -> bool
    requires preorder { IsPreorder nodes.now }
    requires within { n < length nodes.now }
    ensures { IsTrue result ↔ IsNearestSequence nodes.now sequence n }
{
    match nearest_sequence(nodes, n) {
        Some(top) => top == sequence,
        None => false,
    }
}

/// Whether the node is a branch that its block leaves out, where the sequence is the nearest one
/// round the block.
fn is_free(nodes: &[Node], sequence: usize, n: usize) -> bool
    requires preorder { IsPreorder nodes.now }
    requires within { n < length nodes.now }
    ensures { IsTrue result ↔ IsFree nodes.now sequence n }
{
    let Some(block) = nodes[n].parent else {
        return false;
    };
    let block = block as usize;
    if !leaves_out(nodes, block, n) {
        return false;
    }
    is_nearest(nodes, sequence, block)
}

/// Whether something over the leaf is free in the sequence.
pub(crate) fn is_released(nodes: &[Node], sequence: usize, leaf: usize) -> bool
    requires preorder { IsPreorder nodes.now }
    requires within { leaf < length nodes.now }
    ensures { IsTrue result ↔ Over nodes.now (IsFree nodes.now sequence) leaf }
{
    let mut at = leaf;
    'parents: while !is_free(nodes, sequence, at) {
        let Some(parent) = nodes[at].parent else {
            return false;
        };
        at = parent as usize;
    }
    true
}
