//! Why a scenario has no plan: what its groups, its order and its conflicts break.
ghost use Rattle.std.specs.Prelude.{◌≡◌, ◌↔◌, ◌⊎◌, ◌<◌, ℕ, length, get_or, IsTrue, MatchOption};
ghost use Rattle.pst_scen.specs.Rows.{Has};
ghost use Rattle.pst_scen.specs.Plans.{AreEntriesOf};
ghost use Rattle.pst_scen.specs.Refusals.{IsOnCycle, GroupClashes, IsParallelOrdered, IsParallelClash, IsLeast, IsLeastPair, HasNoCycle, HasNoGroupClash, HasNoParallelOrder, HasNoParallelClash};
ghost use Rattle.pst_order.specs.Built.{IsBuilt};
ghost use Rattle.pst_order.specs.Facts.{IsLinked};
ghost use Rattle.pst_nodes.specs.Tabled.{AreTables};

use crate::cause::{clashes_alone, contend};
use pst_nodes::{Tables, first_beside, stand_parallel, stands_in_parallel};
use pst_scen::{Plan, Scenario};
use pst_square::next_in;

/// The least action that must come before itself.
pub(crate) fn find_cycle(scenario: &Scenario, plan: &Plan) -> Option<u32>
    requires { AreEntriesOf scenario.now plan.now }
    ensures { MatchOption result (HasNoCycle scenario.now) (IsLeast (IsOnCycle scenario.now)) }
{
    for a in 0..plan.len() {
        if plan.must(a, a) {
            return Some(a);
        }
    }
    None
}

/// Whether the two actions are of one group.
fn share_group(plan: &Plan, a: u32, b: u32) -> bool
    requires a_in { a < length plan.now.groups }
    requires b_in { b < length plan.now.groups }
    ensures { IsTrue result ↔ get_or plan.now.groups b 0 ≡ get_or plan.now.groups a 0 }
{
    plan.group(b) == plan.group(a)
}

/// The least action that clashes with `a` in its group, `a` itself or one behind it.
fn find_clash_of(scenario: &Scenario, plan: &Plan, a: u32) -> Option<u32>
    requires linked { IsLinked scenario.now }
    requires entries { AreEntriesOf scenario.now plan.now }
    requires a_in { a < length scenario.now.actions }
    ensures { MatchOption result ((b : ℕ) → GroupClashes scenario.now a b → ⊥) (IsLeast (GroupClashes scenario.now a)) }
{
    if clashes_alone(scenario, a) {
        return Some(a);
    }
    if plan.width() < 2 {
        return None;
    }
    let rows = plan.conflict_rows();
    let mut at = a;
    'rest: while let Some(b) = next_in(rows, a, at) {
        if share_group(plan, a, b) {
            return Some(b);
        }
        at = b;
    }
    None
}

/// The least pair of actions that clash in a group. An action whose own claims clash is a pair with
/// itself.
pub(crate) fn find_group_clash(scenario: &Scenario, plan: &Plan) -> Option<(u32, u32)>
    requires linked { IsLinked scenario.now }
    requires entries { AreEntriesOf scenario.now plan.now }
    ensures { MatchOption result (HasNoGroupClash scenario.now) (λ p. IsLeastPair (GroupClashes scenario.now) p.0 p.1) }
{
    for a in 0..plan.len() {
        if let Some(b) = find_clash_of(scenario, plan, a) {
            return Some((a, b));
        }
    }
    None
}

/// Whether one of the two actions must come before the other.
fn is_ordered(plan: &Plan, a: u32, b: u32) -> bool
    requires a_in { a < length plan.now.groups }
    requires b_in { b < length plan.now.groups }
    ensures { IsTrue result ↔ Has plan.now.must a b ⊎ Has plan.now.must b a }
{
    if plan.must(a, b) {
        return true;
    }
    plan.must(b, a)
}

/// Whether the two actions are ordered and stand in different branches of one parallel block.
fn is_ordered_beside(scenario: &Scenario, plan: &Plan, a: u32, b: u32) -> bool
    requires linked { IsLinked scenario.now }
    requires entries { AreEntriesOf scenario.now plan.now }
    requires order { a < b }
    requires b_in { b < length scenario.now.actions }
    ensures { IsTrue result ↔ IsParallelOrdered scenario.now a b }
{
    if !is_ordered(plan, a, b) {
        return false;
    }
    stand_parallel(scenario, a, b)
}

/// The least action behind `a` that is ordered with it though both stand in different branches of
/// one parallel block.
fn find_ordered_of(scenario: &Scenario, plan: &Plan, a: u32) -> Option<u32>
    requires linked { IsLinked scenario.now }
    requires entries { AreEntriesOf scenario.now plan.now }
    requires a_in { a < length scenario.now.actions }
    ensures { MatchOption result ((b : ℕ) → IsParallelOrdered scenario.now a b → ⊥) (IsLeast (IsParallelOrdered scenario.now a)) }
{
    if !stands_in_parallel(scenario, a) {
        return None;
    }
    let count = plan.len();
    for b in a + 1..count {
        if is_ordered_beside(scenario, plan, a, b) {
            return Some(b);
        }
    }
    None
}

/// An action before which none is ordered with one in another branch of one parallel block.
pub(crate) fn first_ordered(scenario: &Scenario, tables: &Tables, plan: &Plan) -> u32
    requires built { IsBuilt scenario.now }
    requires tables { AreTables scenario.now.nodes tables.now }
    requires entries { AreEntriesOf scenario.now plan.now }
    ensures { (a b : ℕ) → a < result → IsParallelOrdered scenario.now a b → ⊥ }
{
    first_beside(scenario, tables, plan.must_rows())
}

/// An action before which none contends with one in another branch of one parallel block.
pub(crate) fn first_contender(scenario: &Scenario, tables: &Tables, plan: &Plan) -> u32
    requires built { IsBuilt scenario.now }
    requires tables { AreTables scenario.now.nodes tables.now }
    requires entries { AreEntriesOf scenario.now plan.now }
    ensures { (a b : ℕ) → a < result → IsParallelClash scenario.now a b → ⊥ }
{
    first_beside(scenario, tables, plan.conflict_rows())
}

/// The least pair of actions that are ordered though they stand in different branches of one
/// parallel block, where none has a first action before the given one.
pub(crate) fn find_parallel_order(scenario: &Scenario, plan: &Plan, from: u32) -> Option<(u32, u32)>
    requires linked { IsLinked scenario.now }
    requires entries { AreEntriesOf scenario.now plan.now }
    requires none { (a b : ℕ) → a < from → IsParallelOrdered scenario.now a b → ⊥ }
    ensures { MatchOption result (HasNoParallelOrder scenario.now) (λ p. IsLeastPair (IsParallelOrdered scenario.now) p.0 p.1) }
{
    for a in from..plan.len() {
        if let Some(b) = find_ordered_of(scenario, plan, a) {
            return Some((a, b));
        }
    }
    None
}

/// Whether the two actions contend for a resource instance and stand in different branches of one
/// parallel block.
fn contend_beside(scenario: &Scenario, a: u32, b: u32) -> bool
    requires linked { IsLinked scenario.now }
    requires order { a < b }
    requires b_in { b < length scenario.now.actions }
    ensures { IsTrue result ↔ IsParallelClash scenario.now a b }
{
    if !contend(scenario, a, b) {
        return false;
    }
    stand_parallel(scenario, a, b)
}

/// The least action behind `a` that contends with it from another branch of one parallel block.
fn find_contender_of(scenario: &Scenario, plan: &Plan, a: u32) -> Option<u32>
    requires linked { IsLinked scenario.now }
    requires entries { AreEntriesOf scenario.now plan.now }
    requires a_in { a < length scenario.now.actions }
    ensures { MatchOption result ((b : ℕ) → IsParallelClash scenario.now a b → ⊥) (IsLeast (IsParallelClash scenario.now a)) }
{
    if !stands_in_parallel(scenario, a) {
        return None;
    }
    let rows = plan.conflict_rows();
    let mut at = a;
    'rest: while let Some(b) = next_in(rows, a, at) {
        if contend_beside(scenario, a, b) {
            return Some(b);
        }
        at = b;
    }
    None
}

/// The least pair of actions that contend for a resource instance from different branches of one
/// parallel block, where none has a first action before the given one.
pub(crate) fn find_parallel_clash(scenario: &Scenario, plan: &Plan, from: u32) -> Option<(u32, u32)>
    requires linked { IsLinked scenario.now }
    requires entries { AreEntriesOf scenario.now plan.now }
    requires none { (a b : ℕ) → a < from → IsParallelClash scenario.now a b → ⊥ }
    ensures { MatchOption result (HasNoParallelClash scenario.now) (λ p. IsLeastPair (IsParallelClash scenario.now) p.0 p.1) }
{
    for a in from..plan.len() {
        if let Some(b) = find_contender_of(scenario, plan, a) {
            return Some((a, b));
        }
    }
    None
}
