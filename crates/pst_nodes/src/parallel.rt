//! Which actions stand in different branches of one parallel block.
ghost use Rattle.std.specs.Prelude.{◌≡◌, ◌<◌, ◌↔◌, length, IsTrue, ℕ};
ghost use Rattle.pst_scen.specs.declared.act.Act.{Act};
ghost use Rattle.pst_scen.specs.Flows.{IsAct};
ghost use Rattle.pst_scen.specs.Plans.{IsParallel, StandParallel};
ghost use Rattle.pst_scen.specs.Laws.{IsPreorder, HasOneLeafEach};
ghost use Rattle.pst_nodes.specs.Over.{Over, IsParallelBlock, IsBranch, IsBranchBeside};

use crate::climb::{child_over, leaf_of};
use pst_scen::{Fill, Node, Scenario};

/// Whether it is a parallel block, with a join form or without.
fn is_parallel(fill: &Fill) -> bool
    ensures { IsTrue result ↔ IsParallel fill.now }
{
    match fill {
        Fill::Parallel => true,
        Fill::Joined { parallel, .. } => *parallel,
        _ => false,
    }
}

/// Whether the node is a parallel block.
pub(crate) fn is_block(nodes: &[Node], n: usize) -> bool
    requires { n < length nodes.now }
    ensures { IsTrue result ↔ IsParallelBlock nodes.now n }
{
    is_parallel(&nodes[n].fill)
}

/// Whether the node is a branch of a parallel block, and the other one stands in another branch.
fn is_branch_beside(nodes: &[Node], other: usize, n: usize) -> bool
    requires preorder { IsPreorder nodes.now }
    requires other_in { other < length nodes.now }
    requires within { n < length nodes.now }
    ensures { IsTrue result ↔ IsBranchBeside nodes.now other n }
{
    let Some(block) = nodes[n].parent else {
        return false;
    };
    let block = block as usize;
    if !is_block(nodes, block) {
        return false;
    }
    let Some(branch) = child_over(nodes, block, other) else {
        return false;
    };
    branch != n
}

/// Whether the two leaves stand in different branches of one parallel block.
fn are_leaves_parallel(nodes: &[Node], leaf: usize, other: usize) -> bool
    requires preorder { IsPreorder nodes.now }
    requires leaf_in { leaf < length nodes.now }
    requires other_in { other < length nodes.now }
    ensures { IsTrue result ↔ Over nodes.now (IsBranchBeside nodes.now other) leaf }
{
    let mut at = leaf;
    'parents: while !is_branch_beside(nodes, other, at) {
        let Some(parent) = nodes[at].parent else {
            return false;
        };
        at = parent as usize;
    }
    true
}

/// Whether the node is a branch of a parallel block.
fn is_branch(nodes: &[Node], n: usize) -> bool
    requires preorder { IsPreorder nodes.now }
    requires within { n < length nodes.now }
    ensures { IsTrue result ↔ IsBranch nodes.now n }
{
    let Some(block) = nodes[n].parent else {
        return false;
    };
    is_block(nodes, block as usize)
}

/// Whether the leaf stands in a branch of a parallel block.
fn is_leaf_in_branch(nodes: &[Node], leaf: usize) -> bool
    requires preorder { IsPreorder nodes.now }
    requires leaf_in { leaf < length nodes.now }
    ensures { IsTrue result ↔ Over nodes.now (IsBranch nodes.now) leaf }
{
    let mut at = leaf;
    'parents: while !is_branch(nodes, at) {
        let Some(parent) = nodes[at].parent else {
            return false;
        };
        at = parent as usize;
    }
    true
}

/// The node that the action names, if there is one.
pub(crate) fn node_of(scenario: &Scenario, a: u32) -> Option<u32>
    ensures { (act : Act) → IsAct scenario.now a act → result ≡ act.node }
{
    match scenario.actions.as_slice().get(a as usize) {
        Some(act) => act.node,
        None => None,
    }
}

/// Whether the action stands in a parallel block. One that doesn't has none that stands beside it.
pub fn stands_in_parallel(scenario: &Scenario, a: u32) -> bool
    requires preorder { IsPreorder scenario.now.nodes }
    requires one_leaf { HasOneLeafEach scenario.now.nodes }
    ensures { (b : ℕ) → StandParallel scenario.now a b → IsTrue result }
{
    let nodes = scenario.nodes.as_slice();
    let Some(leaf) = leaf_of(nodes, node_of(scenario, a), a) else {
        return false;
    };
    is_leaf_in_branch(nodes, leaf)
}

/// Whether the two actions stand in different branches of one parallel block.
pub fn stand_parallel(scenario: &Scenario, a: u32, b: u32) -> bool
    requires preorder { IsPreorder scenario.now.nodes }
    requires one_leaf { HasOneLeafEach scenario.now.nodes }
    ensures { IsTrue result ↔ StandParallel scenario.now a b }
{
    let nodes = scenario.nodes.as_slice();
    let Some(leaf) = leaf_of(nodes, node_of(scenario, a), a) else {
        return false;
    };
    let Some(other) = leaf_of(nodes, node_of(scenario, b), b) else {
        return false;
    };
    are_leaves_parallel(nodes, leaf, other)
}
