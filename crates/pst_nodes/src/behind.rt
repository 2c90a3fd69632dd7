//! The rows of the order of statements: which actions stand behind which.
ghost use Rattle.std.specs.Prelude.{◌≡◌, ◌≤◌, ◌<◌, ◌^◌, ◌↔◌, ℕ, length, IfOk};
ghost use Rattle.pst_scen.specs.Tree.{IsChild};
ghost use Rattle.pst_nodes.specs.Over.{Over, IsLeafOf};
ghost use Rattle.pst_square.specs.Squares.{Adds, IsInRow};
ghost use Rattle.pst_nodes.specs.Tables.{AreNodesNumbered, IsBehind, StandsBefore, leaf_count};
ghost use Rattle.pst_nodes.specs.Tabled.{AreTables};

use crate::before::is_released;
use crate::climb::is_sequence;
use crate::tables::Tables;
use pst_scen::Node;
use pst_square::Square;

/// Adds the pairs of the action with those that stand behind the node in the sequence, where the
/// sequence awaits the action's leaf.
fn add_behind(
    square: &mut Square,
    nodes: &[Node],
    tables: &Tables,
    a: u32,
    leaf: usize,
    n: usize,
    sequence: usize,
)
    requires numbered { AreNodesNumbered nodes.now }
    requires tables { AreTables nodes.now tables.now }
    requires size { leaf_count nodes.now (length nodes.now) ≤ square.old.size }
    requires a_in { a < square.old.size }
    requires leaf_in { leaf < length nodes.now }
    requires n_in { n < length nodes.now }
    requires sequence_in { sequence < length nodes.now }
    requires child { IsChild nodes.now n sequence }
    ensures { Adds square.old square.new (IsInRow (λ c d. IsBehind nodes.now leaf n d) a) }
{
    if !is_sequence(nodes, sequence) {
        return;
    }
    if is_released(nodes, sequence, leaf) {
        return;
    }
    let from = tables.leaves_until_end(nodes, n);
    let to = tables.leaves_until_end(nodes, sequence);
    square.add_range(a, from, to);
}

/// Adds the pairs of the action with those that stand behind it.
fn add_row(square: &mut Square, nodes: &[Node], tables: &Tables, a: u32, leaf: usize)
    requires numbered { AreNodesNumbered nodes.now }
    requires tables { AreTables nodes.now tables.now }
    requires size { leaf_count nodes.now (length nodes.now) ≤ square.old.size }
    requires a_in { a < square.old.size }
    requires leaf_in { leaf < length nodes.now }
    ensures { Adds square.old square.new (IsInRow (λ c d. Over nodes.now (λ n. IsBehind nodes.now leaf n d) leaf) a) }
{
    let mut at = leaf;
    'parents: while let Some(parent) = nodes[at].parent {
        add_behind(square, nodes, tables, a, leaf, at, parent as usize);
        at = parent as usize;
    }
}

/// Adds the pairs of the action, where it has a leaf, with those that stand behind it.
fn add_row_of(square: &mut Square, nodes: &[Node], tables: &Tables, a: u32)
    requires numbered { AreNodesNumbered nodes.now }
    requires tables { AreTables nodes.now tables.now }
    requires size { leaf_count nodes.now (length nodes.now) ≤ square.old.size }
    requires a_in { a < square.old.size }
    ensures { Adds square.old square.new (IsInRow (StandsBefore nodes.now) a) }
{
    if a as usize >= tables.leaves.len() {
        return;
    }
    let leaf = tables.leaves[a as usize] as usize;
    add_row(square, nodes, tables, a, leaf);
}

/// Adds the pairs of which the first stands in an earlier statement of a sequence than the second,
/// and isn't released in that sequence.
pub fn add_behinds(square: &mut Square, nodes: &[Node], tables: &Tables, count: u32)
    requires numbered { AreNodesNumbered nodes.now }
    requires tables { AreTables nodes.now tables.now }
    requires size { leaf_count nodes.now (length nodes.now) ≤ square.old.size }
    requires count { square.old.size ≡ count }
    ensures { Adds square.old square.new (StandsBefore nodes.now) }
{
    for a in 0..count {
        add_row_of(square, nodes, tables, a);
    }
}
