//! The groups that streams make of a scenario's actions.
ghost use Rattle.std.specs.Prelude.{◌≡◌, ◌≢◌, ◌≤◌, ◌<◌, ◌↔◌, ◌^◌, ℕ, length, get_or, sum, IsTrue, IfOk, MatchOption};
ghost use Rattle.pst_scen.specs.Flows.{Streams};
ghost use Rattle.pst_scen.specs.Plans.{IsGroupNumber};
ghost use Rattle.pst_order.specs.Facts.{IsLinked};
ghost use Rattle.pst_graph.specs.Grouping.{AreMembers, IsApart};
ghost use Rattle.pst_graph.specs.Streamed.{IsStreamTo, StreamsFrom, IsJoined};

use crate::cause::act_at;
use pst_base::NoMemory;
use pst_scen::{Filled, Flow, Link, Scenario};
use std::alloc::Global;

/// The numbers of the actions, each of a group of its own.
fn alone(alloc: Global, count: u32) -> Result<Vec<u32>, NoMemory>
    ensures { IfOk result (λ groups. (length groups.items ≡ count) × ((a : ℕ) → a < count → get_or groups.items a 0 ≡ a)) }
{
    let mut groups = Vec::new(alloc);
    for a in 0..count {
        groups.push(a)?;
    }
    Ok(groups)
}

/// The action at the other end of the stream, where the reference is the end of one.
fn stream_of(filled: &Filled) -> Option<u32>
    ensures { MatchOption result ((b : ℕ) → IsStreamTo filled.now b → ⊥) (IsStreamTo filled.now) }
{
    if filled.flow != Flow::StreamIn && filled.flow != Flow::StreamOut {
        return None;
    }
    match filled.link {
        Link::Act { act, .. } => Some(act),
        _ => None,
    }
}

/// Whether the second action has the lower number.
fn is_lower(groups: &[u32], a: u32, b: u32) -> bool
    requires a_in { a < length groups.now }
    requires b_in { b < length groups.now }
    ensures { IsTrue result ↔ get_or groups.now b 0 < get_or groups.now a 0 }
{
    groups[b as usize] < groups[a as usize]
}

/// The two actions, which a stream joins, in the order in which the second has the lower number;
/// nothing where both have one number.
fn apart_of(scenario: &Scenario, groups: &[u32], a: u32, b: u32) -> Option<(u32, u32)>
    requires link { Streams scenario.now a b }
    requires many { length groups.now ≡ length scenario.now.actions }
    requires a_in { a < length scenario.now.actions }
    requires b_in { b < length scenario.now.actions }
    ensures { MatchOption result (get_or groups.now a 0 ≡ get_or groups.now b 0) (λ p. IsApart scenario.now groups.now p.0 p.1) }
{
    if is_lower(groups, a, b) {
        return Some((a, b));
    }
    if is_lower(groups, b, a) {
        return Some((b, a));
    }
    None
}

/// The action and the one to which its reference joins it by a stream, where they have different
/// numbers; the second has the lower one.
fn apart_by(scenario: &Scenario, groups: &[u32], filled: &Filled, a: u32) -> Option<(u32, u32)>
    requires link { (b : ℕ) → IsStreamTo filled.now b → Streams scenario.now a b }
    requires inside { (b : ℕ) → IsStreamTo filled.now b → b < length scenario.now.actions }
    requires many { length groups.now ≡ length scenario.now.actions }
    requires a_in { a < length scenario.now.actions }
    ensures { MatchOption result (IsJoined groups.now a filled.now) (λ p. IsApart scenario.now groups.now p.0 p.1) }
{
    let Some(b) = stream_of(filled) else {
        return None;
    };
    apart_of(scenario, groups, a, b)
}

/// The action and another to which a reference of its own joins it by a stream, of which the second
/// has the lower number.
fn find_apart_of(scenario: &Scenario, groups: &[u32], a: u32) -> Option<(u32, u32)>
    requires linked { IsLinked scenario.now }
    requires many { length groups.now ≡ length scenario.now.actions }
    requires a_in { a < length scenario.now.actions }
    ensures { MatchOption result ((b : ℕ) → StreamsFrom scenario.now a b → get_or groups.now a 0 ≡ get_or groups.now b 0) (λ p. IsApart scenario.now groups.now p.0 p.1) }
{
    let act = act_at(scenario, a);
    let references = act.references.as_slice();
    for i in 0..references.len() {
        if let Some((high, low)) = apart_by(scenario, groups, &references[i], a) {
            return Some((high, low));
        }
    }
    None
}

/// Two actions that a stream joins, of which the second has the lower number.
fn find_apart(scenario: &Scenario, groups: &[u32], count: u32) -> Option<(u32, u32)>
    requires linked { IsLinked scenario.now }
    requires many { length groups.now ≡ length scenario.now.actions }
    requires count { count ≡ length scenario.now.actions }
    ensures { MatchOption result ((a b : ℕ) → IsApart scenario.now groups.now a b → ⊥) (λ p. IsApart scenario.now groups.now p.0 p.1) }
{
    for a in 0..count {
        if let Some((high, low)) = find_apart_of(scenario, groups, a) {
            return Some((high, low));
        }
    }
    None
}

/// Gives the first action the lower number of the second.
fn lower(groups: &mut Vec<u32>, a: usize, b: usize)
    requires a_in { a < length groups.old.items }
    requires b_in { b < length groups.old.items }
    requires less { get_or groups.old.items b 0 < get_or groups.old.items a 0 }
    ensures many { length groups.new.items ≡ length groups.old.items }
    ensures at { get_or groups.new.items a 0 ≡ get_or groups.old.items b 0 }
    ensures others { (c : ℕ) → c ≢ a → get_or groups.new.items c 0 ≡ get_or groups.old.items c 0 }
    ensures less { sum groups.new.items < sum groups.old.items }
{
    let to = groups[b];
    groups[a] = to;
}

/// Gives the action and the one to which its reference joins it by a stream the lower of their
/// numbers.
fn join_by(groups: &mut Vec<u32>, scenario: &Scenario, filled: &Filled, a: u32)
    requires link { (b : ℕ) → IsStreamTo filled.now b → Streams scenario.now a b }
    requires inside { (b : ℕ) → IsStreamTo filled.now b → b < length scenario.now.actions }
    requires members { AreMembers scenario.now groups.old.items }
    requires a_in { a < length scenario.now.actions }
    ensures members { AreMembers scenario.now groups.new.items }
    ensures less { sum groups.new.items ≤ sum groups.old.items }
{
    let Some((high, low)) = apart_by(scenario, groups, filled, a) else {
        return;
    };
    lower(groups, high as usize, low as usize);
}

/// Lowers numbers along the streams that the action's references name.
fn join_all_of(groups: &mut Vec<u32>, scenario: &Scenario, a: u32)
    requires linked { IsLinked scenario.now }
    requires members { AreMembers scenario.now groups.old.items }
    requires a_in { a < length scenario.now.actions }
    ensures members { AreMembers scenario.now groups.new.items }
    ensures less { sum groups.new.items ≤ sum groups.old.items }
{
    let act = act_at(scenario, a);
    let references = act.references.as_slice();
    for i in 0..references.len() {
        join_by(groups, scenario, &references[i], a);
    }
}

/// Lowers numbers along all streams once.
fn join_all(groups: &mut Vec<u32>, scenario: &Scenario, count: u32)
    requires linked { IsLinked scenario.now }
    requires members { AreMembers scenario.now groups.old.items }
    requires count { count ≡ length scenario.now.actions }
    ensures members { AreMembers scenario.now groups.new.items }
    ensures less { sum groups.new.items ≤ sum groups.old.items }
{
    for a in 0..count {
        join_all_of(groups, scenario, a);
    }
}

/// The group of each action, in time that grows with the number of references and the length of the
/// longest way along streams.
pub fn groups_of(alloc: Global, scenario: &Scenario, count: u32) -> Result<Vec<u32>, NoMemory>
    requires linked { IsLinked scenario.now }
    requires count { count ≡ length scenario.now.actions }
    ensures { IfOk result (λ groups. (length groups.items ≡ length scenario.now.actions) × ((a : ℕ) → a < length scenario.now.actions → IsGroupNumber scenario.now a (get_or groups.items a 0))) }
{
    let mut groups = alone(alloc, count)?;
    'passes: while let Some((a, b)) = find_apart(scenario, &groups, count) {
        lower(&mut groups, a as usize, b as usize);
        join_all(&mut groups, scenario, count);
    }
    Ok(groups)
}
