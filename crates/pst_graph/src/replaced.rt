//! The pairs of readers and those that replace what they read.
ghost use Rattle.std.specs.Prelude.{◌≡◌, ◌≤◌, ◌<◌, ◌+◌, ◌↔◌, ℕ, length, IsTrue, IfOk};
ghost use Rattle.pst_square.specs.Squares.{Adds, IsOnly, IsInRow};
ghost use Rattle.pst_graph.specs.Listed.{IsReplacing};
ghost use Rattle.pst_graph.specs.Writes.{AreWritesInside, ListsWrites, IsMatching, IsMatchingIn, ReadsMatching, ReadsMatchingIn};

use crate::cause::act_at;
use crate::links::{is_flow, is_link, reads_replaced};
use crate::writes::{Write, writes_of};
use pst_base::NoMemory;
use pst_scen::{Filled, Flow, Scenario};
use pst_square::Square;
use std::alloc::Global;

/// Whether the second action, which is another, replaces an object that the first reads.
fn is_replacing(scenario: &Scenario, a: u32, b: u32) -> bool
    requires a_in { a < length scenario.now.actions }
    requires b_in { b < length scenario.now.actions }
    ensures { IsTrue result ↔ IsReplacing scenario.now a b }
{
    if a == b {
        return false;
    }
    let readers = act_at(scenario, a).references.as_slice();
    reads_replaced(readers, act_at(scenario, b).references.as_slice())
}

/// Adds the pair, where the second action replaces what the first reads.
fn add_replacing(square: &mut Square, scenario: &Scenario, a: u32, b: u32)
    requires size { square.old.size ≡ length scenario.now.actions }
    requires a_in { a < length scenario.now.actions }
    requires b_in { b < length scenario.now.actions }
    ensures { Adds square.old square.new (IsOnly (IsReplacing scenario.now) a b) }
{
    if is_replacing(scenario, a, b) {
        square.add(a, b);
    }
}

/// Adds the pair of the action with the writer, where it replaces what the reference reads.
fn add_match(square: &mut Square, scenario: &Scenario, filled: &Filled, write: &Write, a: u32)
    requires size { square.old.size ≡ length scenario.now.actions }
    requires a_in { a < length scenario.now.actions }
    requires inside { write.now.act < length scenario.now.actions }
    ensures { Adds square.old square.new (IsMatching scenario.now filled.now a write.now) }
{
    if write.pool != filled.pool {
        return;
    }
    if !is_link(write.replaced, filled.link) {
        return;
    }
    add_replacing(square, scenario, a, write.act);
}

/// Adds the pairs of the action with the writers that replace what the reference reads.
fn add_matches(square: &mut Square, scenario: &Scenario, filled: &Filled, writes: &[Write], a: u32)
    requires size { square.old.size ≡ length scenario.now.actions }
    requires a_in { a < length scenario.now.actions }
    requires inside { AreWritesInside scenario.now writes.now }
    ensures { Adds square.old square.new (IsMatchingIn scenario.now filled.now a writes.now) }
{
    for i in 0..writes.len() {
        add_match(square, scenario, filled, &writes[i], a);
    }
}

/// Adds these pairs, where the reference reads a state pool.
fn add_reading(square: &mut Square, scenario: &Scenario, filled: &Filled, writes: &[Write], a: u32)
    requires size { square.old.size ≡ length scenario.now.actions }
    requires a_in { a < length scenario.now.actions }
    requires inside { AreWritesInside scenario.now writes.now }
    ensures { Adds square.old square.new (ReadsMatching scenario.now a writes.now filled.now) }
{
    if is_flow(filled.flow, Flow::StateIn) {
        add_matches(square, scenario, filled, writes, a);
    }
}

/// Adds these pairs for each of the references.
fn add_readings(
    square: &mut Square,
    scenario: &Scenario,
    references: &[Filled],
    writes: &[Write],
    a: u32,
)
    requires size { square.old.size ≡ length scenario.now.actions }
    requires a_in { a < length scenario.now.actions }
    requires inside { AreWritesInside scenario.now writes.now }
    ensures { Adds square.old square.new (ReadsMatchingIn scenario.now a writes.now references.now) }
{
    for i in 0..references.len() {
        add_reading(square, scenario, &references[i], writes, a);
    }
}

/// Adds the pairs of the action with those that replace what it reads.
fn add_replacing_row(square: &mut Square, scenario: &Scenario, writes: &[Write], a: u32)
    requires size { square.old.size ≡ length scenario.now.actions }
    requires writes { ListsWrites scenario.now writes.now (length scenario.now.actions) }
    requires a_in { a < length scenario.now.actions }
    ensures { Adds square.old square.new (IsInRow (IsReplacing scenario.now) a) }
{
    let act = act_at(scenario, a);
    add_readings(square, scenario, act.references.as_slice(), writes, a);
}

/// Adds the pairs of which the second action replaces an object that the first reads.
pub(crate) fn add_replaced(
    alloc: Global,
    square: &mut Square,
    scenario: &Scenario,
    count: u32,
) -> Result<(), NoMemory>
    requires size { square.old.size ≡ length scenario.now.actions }
    requires count { count ≡ length scenario.now.actions }
    ensures { IfOk result (λ u. Adds square.old square.new (IsReplacing scenario.now)) }
{
    let writes = writes_of(alloc, scenario, count)?;
    add_replacing_rows(square, scenario, &writes, count);
    Ok(())
}

/// Adds the pairs of each action with those that replace what it reads.
fn add_replacing_rows(square: &mut Square, scenario: &Scenario, writes: &[Write], count: u32)
    requires size { square.old.size ≡ length scenario.now.actions }
    requires writes { ListsWrites scenario.now writes.now (length scenario.now.actions) }
    requires count { count ≡ length scenario.now.actions }
    ensures { Adds square.old square.new (IsReplacing scenario.now) }
{
    for a in 0..count {
        add_replacing_row(square, scenario, writes, a);
    }
}
