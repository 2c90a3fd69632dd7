//! What is needed below the nodes of an activity.
ghost use Rattle.std.specs.Prelude.{◌≡◌, ◌<◌, ◌+◌, ◌↔◌, ℕ, List, length, IsTrue};
ghost use Rattle.pst_scen.specs.declared.scenario.Scenario.{Scenario as TheScenario};
ghost use Rattle.pst_scen.specs.Laws.{IsPreorder, HasOneLeafEach};
ghost use Rattle.pst_scen.specs.Tree.{IsChild};
ghost use Rattle.pst_scen.specs.Plans.{IsParallel};
ghost use Rattle.pst_nodes.specs.Over.{IsParallelBlock};
ghost use Rattle.pst_claim_rivals.specs.declared.claims.OpenClaim.{OpenClaim as TheClaim};
ghost use Rattle.pst_claim_counts.specs.Needs.{IsNeed, AreNeeds, IsBelow};

use crate::needs::{Need, greater, joined, need_at, put};
use pst_scen::{Fill, Node};

// Whether it is a parallel block, with a join form or without.
fn is_parallel(fill: &Fill) -> bool
    ensures { IsTrue result ↔ IsParallel fill.now }
{
    match fill {
        Fill::Parallel => true,
        Fill::Joined { parallel, .. } => *parallel,
        _ => false,
    }
}

// Whether a node is a parallel block.
fn is_block(nodes: &[Node], n: usize) -> bool
    requires { n < length nodes.now }
    ensures { IsTrue result ↔ IsParallelBlock nodes.now n }
{
    is_parallel(&nodes[n].fill)
}

// What the parent of a node needs, with what is needed below the node.
fn raised(needs: &[Need], nodes: &[Node], n: usize, parent: usize) -> Need
    requires preorder { IsPreorder nodes.now }
    requires one_leaf { HasOneLeafEach nodes.now }
    requires n_in { n < length nodes.now }
    requires child { IsChild nodes.now n parent }
    requires many { length needs.now ≡ length nodes.now }
    ensures { (s : TheScenario) (claims : List TheClaim) (pool : ℕ) → s.nodes ≡ nodes.now → AreNeeds s (IsBelow nodes.now claims pool (n + 1)) needs.now → IsNeed s (IsBelow nodes.now claims pool n parent) result }
{
    let one = need_at(needs, parent);
    let other = need_at(needs, n);
    if is_block(nodes, parent) {
        return joined(one, other);
    }
    greater(one, other)
}

// Adds what is needed below a node to what its parent needs.
fn raise(needs: &mut Vec<Need>, nodes: &[Node], n: usize)
    requires preorder { IsPreorder nodes.now }
    requires one_leaf { HasOneLeafEach nodes.now }
    requires n_in { n < length nodes.now }
    requires many { length needs.old.items ≡ length nodes.now }
    ensures many { length needs.new.items ≡ length nodes.now }
    ensures raised { (s : TheScenario) (claims : List TheClaim) (pool : ℕ) → s.nodes ≡ nodes.now → AreNeeds s (IsBelow nodes.now claims pool (n + 1)) needs.old.items → AreNeeds s (IsBelow nodes.now claims pool n) needs.new.items }
{
    let Some(parent) = nodes[n].parent else {
        return;
    };
    let parent = parent as usize;
    let need = raised(needs.as_slice(), nodes, n, parent);
    put(needs, parent, need);
}

/// From what the leaves need what all nodes do.
pub(crate) fn raise_all(needs: &mut Vec<Need>, nodes: &[Node])
    requires preorder { IsPreorder nodes.now }
    requires one_leaf { HasOneLeafEach nodes.now }
    requires many { length needs.old.items ≡ length nodes.now }
    ensures many { length needs.new.items ≡ length nodes.now }
    ensures raised { (s : TheScenario) (claims : List TheClaim) (pool : ℕ) → s.nodes ≡ nodes.now → AreNeeds s (IsBelow nodes.now claims pool (length nodes.now)) needs.old.items → AreNeeds s (IsBelow nodes.now claims pool 0) needs.new.items }
{
    let mut n = nodes.len();
    'nodes: while n > 0 {
        n -= 1;
        raise(needs, nodes, n);
    }
}
