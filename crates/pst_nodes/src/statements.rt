//! Whether one action stands in an earlier statement than another.
ghost use Rattle.std.specs.Prelude.{◌<◌, ◌↔◌, length, IsTrue};
ghost use Rattle.pst_scen.specs.Order.{Before};
ghost use Rattle.pst_scen.specs.Laws.{IsPreorder, HasOneLeafEach};
ghost use Rattle.pst_nodes.specs.Over.{Over, IsAwaited};

use crate::before::is_released;
use crate::climb::{child_over, is_sequence, leaf_of};
use crate::parallel::node_of;
use pst_scen::{Node, Scenario};

/// Whether the node stands directly in a sequence, the other one in a later statement of it, and
/// nothing over the leaf is free in it.
fn is_awaited(nodes: &[Node], leaf: usize, other: usize, n: usize) -> bool
    requires preorder { IsPreorder nodes.now }
    requires leaf_in { leaf < length nodes.now }
    requires other_in { other < length nodes.now }
    requires within { n < length nodes.now }
    ensures { IsTrue result ↔ IsAwaited nodes.now leaf other n }
{
    let Some(sequence) = nodes[n].parent else {
        return false;
    };
    let sequence = sequence as usize;
    if !is_sequence(nodes, sequence) {
        return false;
    }
    let Some(later) = child_over(nodes, sequence, other) else {
        return false;
    };
    if later <= n {
        return false;
    }
    !is_released(nodes, sequence, leaf)
}

/// Whether a sequence has the first leaf in an earlier statement than the second, and awaits it.
fn is_leaf_before(nodes: &[Node], leaf: usize, other: usize) -> bool
    requires preorder { IsPreorder nodes.now }
    requires leaf_in { leaf < length nodes.now }
    requires other_in { other < length nodes.now }
    ensures { IsTrue result ↔ Over nodes.now (IsAwaited nodes.now leaf other) leaf }
{
    let mut at = leaf;
    'parents: while !is_awaited(nodes, leaf, other, at) {
        let Some(parent) = nodes[at].parent else {
            return false;
        };
        at = parent as usize;
    }
    true
}

/// Whether the first action stands in an earlier statement of a sequence than the second, and isn't
/// released in that sequence.
pub fn stands_before(scenario: &Scenario, a: u32, b: u32) -> bool
    requires preorder { IsPreorder scenario.now.nodes }
    requires one_leaf { HasOneLeafEach scenario.now.nodes }
    ensures { IsTrue result ↔ Before scenario.now a b }
{
    let nodes = scenario.nodes.as_slice();
    let Some(leaf) = leaf_of(nodes, node_of(scenario, a), a) else {
        return false;
    };
    let Some(other) = leaf_of(nodes, node_of(scenario, b), b) else {
        return false;
    };
    is_leaf_before(nodes, leaf, other)
}
