//! The first action that a pair of a square joins with one of another branch of a parallel block.
ghost use Rattle.std.specs.Prelude.{◌≡◌, ◌≤◌, ◌<◌, ℕ, length};
ghost use Rattle.pst_scen.specs.Plans.{StandParallel};
ghost use Rattle.pst_scen.specs.Laws.{HasOneLeafEach};
ghost use Rattle.pst_scen.specs.Rows.{IsSquare, Has};
ghost use Rattle.pst_scen.specs.Tree.{IsChild};
ghost use Rattle.pst_nodes.specs.Beside.{IsBesideAt, AreBeside, BoundsRow};
ghost use Rattle.pst_nodes.specs.Over.{Over};
ghost use Rattle.pst_nodes.specs.Tables.{AreNodesNumbered, leaf_count};
ghost use Rattle.pst_nodes.specs.Tabled.{AreTables};

use crate::parallel::is_block;
use crate::tables::Tables;
use pst_scen::{Node, Rows, Scenario};
use pst_square::next_between;

/// A bound no higher than the given one, `a`, and each number of the range that the row of `a` has.
fn bound_in(rows: &Rows, a: u32, from: u32, to: u32, bound: u32) -> u32
    requires square { IsSquare rows.now }
    requires a_in { a < rows.now.size }
    requires to_in { to ≤ rows.now.size }
    ensures lower { result ≤ bound }
    ensures bounds { (b : ℕ) → from ≤ b → b < to → Has rows.now a b → (result ≤ a) × (result ≤ b) }
{
    match next_between(rows, a, from as usize, to) {
        Some(b) => bound.min(a).min(b),
        None => bound,
    }
}

/// The same for the actions that stand in other branches of the parallel block in which the node
/// stands directly.
fn bound_at(
    rows: &Rows,
    nodes: &[Node],
    tables: &Tables,
    a: u32,
    n: usize,
    block: usize,
    bound: u32,
) -> u32
    requires square { IsSquare rows.now }
    requires numbered { AreNodesNumbered nodes.now }
    requires tables { AreTables nodes.now tables.now }
    requires size { leaf_count nodes.now (length nodes.now) ≤ rows.now.size }
    requires a_in { a < rows.now.size }
    requires n_in { n < length nodes.now }
    requires block_in { block < length nodes.now }
    requires child { IsChild nodes.now n block }
    ensures lower { result ≤ bound }
    ensures bounds { BoundsRow rows.now a result (IsBesideAt nodes.now n) }
{
    if !is_block(nodes, block) {
        return bound;
    }
    let before = tables.leaves_until(nodes, block);
    let first = bound_in(rows, a, before, tables.leaves_until(nodes, n), bound);
    let behind = tables.leaves_until_end(nodes, n);
    bound_in(
        rows,
        a,
        behind,
        tables.leaves_until_end(nodes, block),
        first,
    )
}

/// The same for the actions that stand in other branches of the parallel blocks over the leaf.
fn bound_over(rows: &Rows, nodes: &[Node], tables: &Tables, a: u32, leaf: usize, bound: u32) -> u32
    requires square { IsSquare rows.now }
    requires numbered { AreNodesNumbered nodes.now }
    requires tables { AreTables nodes.now tables.now }
    requires size { leaf_count nodes.now (length nodes.now) ≤ rows.now.size }
    requires a_in { a < rows.now.size }
    requires leaf_in { leaf < length nodes.now }
    ensures lower { result ≤ bound }
    ensures bounds { BoundsRow rows.now a result (λ b. Over nodes.now (λ n. IsBesideAt nodes.now n b) leaf) }
{
    let mut least = bound;
    let mut at = leaf;
    'parents: while let Some(parent) = nodes[at].parent {
        least = bound_at(rows, nodes, tables, a, at, parent as usize, least);
        at = parent as usize;
    }
    least
}

/// The same for the actions that stand in other branches of parallel blocks than `a`.
fn bound_of(rows: &Rows, nodes: &[Node], tables: &Tables, a: u32, bound: u32) -> u32
    requires square { IsSquare rows.now }
    requires numbered { AreNodesNumbered nodes.now }
    requires tables { AreTables nodes.now tables.now }
    requires size { leaf_count nodes.now (length nodes.now) ≤ rows.now.size }
    requires a_in { a < rows.now.size }
    ensures lower { result ≤ bound }
    ensures bounds { BoundsRow rows.now a result (AreBeside nodes.now a) }
{
    if a as usize >= tables.leaves.len() {
        return bound;
    }
    let leaf = tables.leaves[a as usize] as usize;
    bound_over(rows, nodes, tables, a, leaf, bound)
}

/// A number no higher than both of each pair of the square whose actions stand in different branches
/// of one parallel block.
pub fn first_beside(scenario: &Scenario, tables: &Tables, rows: &Rows) -> u32
    requires square { IsSquare rows.now }
    requires numbered { AreNodesNumbered scenario.now.nodes }
    requires one_leaf { HasOneLeafEach scenario.now.nodes }
    requires tables { AreTables scenario.now.nodes tables.now }
    requires size { leaf_count scenario.now.nodes (length scenario.now.nodes) ≤ rows.now.size }
    ensures { (a : ℕ) → a < rows.now.size → BoundsRow rows.now a result (StandParallel scenario.now a) }
{
    let nodes = scenario.nodes.as_slice();
    let mut least = rows.size;
    for a in 0..rows.size {
        least = bound_of(rows, nodes, tables, a, least);
    }
    least
}
