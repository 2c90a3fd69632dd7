//! The serial order of a plan's groups.
//!
//! Again and again the group with the least number is taken of those that aren't taken and of which
//! no member waits for one that isn't. A plan orders whole groups, so a group's first member tells
//! whether it waits: a table counts for each action those that must come before it and aren't taken.
//!
//! All rows of the square of `must` are counted up once and down once, a whole word at once. For each block of 64 actions a
//! mark tells where the number of a group may lie that can be taken: a row's words mark their blocks,
//! and a block in which none was found loses its mark. So to look for the next group costs no more
//! than to read a row.
ghost use Rattle.std.specs.Prelude.{◌≡◌, ◌≢◌, ◌↔◌, ◌*◌, ◌/◌, ◌<◌, ◌≤◌, ℕ, length, get_or, replicate, IsTrue, IfOk, MatchOption, true, false};
ghost use Rattle.pst_scen.specs.declared.scenario.Scenario.{Scenario};
ghost use Rattle.pst_scen.specs.Rows.{row_words};
ghost use Rattle.pst_scen.specs.Plans.{IsPlanOf};
ghost use Rattle.pst_book.specs.Tables.{AreNext};
ghost use Rattle.pst_programs.specs.Serial.{IsSerial};
ghost use Rattle.pst_tallies.specs.Tallies.{counts_in, IsTally};
ghost use Rattle.pst_static.specs.Taking.{AreOwed, AreHinted, CanBeTaken, IsFirst, IsFirstFrom, IsTaken};

use crate::rows::mark_blocks;
use crate::tables::{all_awaited, marks};
use pst_base::NoMemory;
use pst_order::must_keeps_groups;
use pst_programs::programs_are_safe;
use pst_scen::Plan;
use pst_tallies::{is_none, lower_awaited, word_end};
use std::alloc::Global;

/// A mark for each block of 64 actions, all of them set.
fn all_marked(alloc: Global, count: u32) -> Result<Vec<bool>, NoMemory>
    ensures { IfOk result (λ v. v.items ≡ replicate (row_words count) true) }
{
    Ok(Vec::from_elem(alloc, true, (count as usize + 63) / 64)?)
}

/// Whether the group of that number isn't taken, and its first member waits for nothing.
fn can_be_taken(plan: &Plan, awaited: &[u32], taken: &[bool], group: u32) -> bool
    requires group_in { group < length plan.now.groups }
    requires tally { IsTally (length plan.now.groups) awaited.now }
    requires many_taken { length taken.now ≡ length plan.now.groups }
    ensures { IsTrue result ↔ CanBeTaken plan.now (counts_in (length plan.now.groups) awaited.now) taken.now group }
{
    if plan.group(group) != group {
        return false;
    }
    if taken[group as usize] {
        return false;
    }
    is_none(plan, awaited, group)
}

/// The least number of such a group from a number on, before another one.
fn least_in(plan: &Plan, awaited: &[u32], taken: &[bool], first: u32, end: u32) -> Option<u32>
    requires inside { (first ≤ end) × (end ≤ length plan.now.groups) }
    requires tally { IsTally (length plan.now.groups) awaited.now }
    requires many_taken { length taken.now ≡ length plan.now.groups }
    ensures { MatchOption result ((g : ℕ) → first ≤ g → g < end → CanBeTaken plan.now (counts_in (length plan.now.groups) awaited.now) taken.now g → ⊥) (IsFirstFrom plan.now (counts_in (length plan.now.groups) awaited.now) taken.now first) }
{
    for group in first..end {
        if can_be_taken(plan, awaited, taken, group) {
            return Some(group);
        }
    }
    None
}

/// The least number of such a group in a block. A block without one loses its mark.
fn look_at(
    plan: &Plan,
    awaited: &[u32],
    taken: &[bool],
    hints: &mut [bool],
    place: usize,
) -> Option<u32>
    requires tally { IsTally (length plan.now.groups) awaited.now }
    requires many_taken { length taken.now ≡ length plan.now.groups }
    requires hinted { AreHinted plan.now (counts_in (length plan.now.groups) awaited.now) taken.now hints.old }
    requires place_in { place * 64 < length plan.now.groups }
    ensures hinted { AreHinted plan.now (counts_in (length plan.now.groups) awaited.now) taken.now hints.new }
    ensures found { MatchOption result ((g : ℕ) → g / 64 ≡ place → g < length plan.now.groups → CanBeTaken plan.now (counts_in (length plan.now.groups) awaited.now) taken.now g → ⊥) (IsFirstFrom plan.now (counts_in (length plan.now.groups) awaited.now) taken.now (place * 64)) }
{
    if !hints[place] {
        return None;
    }
    let size = plan.len();
    let first = place as u32 * 64;
    let end = word_end(first, size);
    if let Some(group) = least_in(plan, awaited, taken, first, end) {
        return Some(group);
    }
    hints[place] = false;
    None
}

/// The least number of such a group, or the number of actions.
fn first_group(plan: &Plan, awaited: &[u32], taken: &[bool], hints: &mut [bool]) -> u32
    requires tally { IsTally (length plan.now.groups) awaited.now }
    requires many_taken { length taken.now ≡ length plan.now.groups }
    requires hinted { AreHinted plan.now (counts_in (length plan.now.groups) awaited.now) taken.now hints.old }
    ensures hinted { AreHinted plan.now (counts_in (length plan.now.groups) awaited.now) taken.now hints.new }
    ensures first { IsFirst plan.now (counts_in (length plan.now.groups) awaited.now) taken.now result }
{
    for place in 0..hints.len() {
        if let Some(group) = look_at(plan, awaited, taken, hints, place) {
            return group;
        }
    }
    plan.len()
}

/// Takes an action.
fn take_one(plan: &Plan, awaited: &mut [u32], taken: &mut [bool], hints: &mut [bool], act: u32)
    requires act_in { act < length plan.now.groups }
    requires tally { IsTally (length plan.now.groups) awaited.old }
    requires owed { AreOwed plan.now (counts_in (length plan.now.groups) awaited.old) taken.old }
    requires hinted { AreHinted plan.now (counts_in (length plan.now.groups) awaited.old) taken.old hints.old }
    requires fresh { get_or taken.old act false ≡ false }
    ensures owed { AreOwed plan.now (counts_in (length plan.now.groups) awaited.new) taken.new }
    ensures hinted { AreHinted plan.now (counts_in (length plan.now.groups) awaited.new) taken.new hints.new }
    ensures here { get_or taken.new act false ≡ true }
    ensures others { (a : ℕ) → a ≢ act → get_or taken.new a false ≡ get_or taken.old a false }
{
    lower_awaited(plan, awaited, act);
    mark_blocks(hints, plan.must_rows(), act);
    taken[act as usize] = true;
}

/// Takes the members of the group of that number.
fn take_group(
    plan: &Plan,
    next: &[u32],
    awaited: &mut [u32],
    taken: &mut [bool],
    hints: &mut [bool],
    group: u32,
)
    requires group_in { group < length plan.now.groups }
    requires number { get_or plan.now.groups group 0 ≡ group }
    requires next { AreNext plan.now.groups next.now }
    requires tally { IsTally (length plan.now.groups) awaited.old }
    requires owed { AreOwed plan.now (counts_in (length plan.now.groups) awaited.old) taken.old }
    requires hinted { AreHinted plan.now (counts_in (length plan.now.groups) awaited.old) taken.old hints.old }
    requires fresh { (a : ℕ) → a < length plan.now.groups → get_or plan.now.groups a 0 ≡ group → get_or taken.old a false ≡ false }
    ensures owed { AreOwed plan.now (counts_in (length plan.now.groups) awaited.new) taken.new }
    ensures hinted { AreHinted plan.now (counts_in (length plan.now.groups) awaited.new) taken.new hints.new }
    ensures taken { IsTaken plan.now group taken.old taken.new }
{
    let count = plan.len();
    let mut act = group;
    'members: while act < count {
        take_one(plan, awaited, taken, hints, act);
        act = next[act as usize];
    }
}

/// Takes one group after another, as long as one can be taken.
fn take_all(
    alloc: Global,
    plan: &Plan,
    next: &[u32],
    awaited: &mut [u32],
    taken: &mut [bool],
    hints: &mut [bool],
) -> Result<Vec<u32>, NoMemory>
    requires planned { (s : Scenario) × IsPlanOf s plan.now }
    requires next { AreNext plan.now.groups next.now }
    requires tally { IsTally (length plan.now.groups) awaited.old }
    requires owed { AreOwed plan.now (counts_in (length plan.now.groups) awaited.old) taken.old }
    requires hinted { AreHinted plan.now (counts_in (length plan.now.groups) awaited.old) taken.old hints.old }
    requires none { (a : ℕ) → a < length plan.now.groups → get_or taken.old a false ≡ false }
    ensures { IfOk result (λ order. IsSerial plan.now order.items) }
{
    programs_are_safe();
    must_keeps_groups();
    let count = plan.len();
    let mut order = Vec::new(alloc);
    let mut group = first_group(plan, awaited, taken, hints);
    'groups: while group < count {
        take_group(plan, next, awaited, taken, hints, group);
        order.push(group)?;
        group = first_group(plan, awaited, taken, hints);
    }
    Ok(order)
}

/// The numbers of the groups in the serial order. The plan is a scenario's, and the table gives the
/// next member of each action's group.
pub(crate) fn serial_order(alloc: Global, plan: &Plan, next: &[u32]) -> Result<Vec<u32>, NoMemory>
    requires planned { (s : Scenario) × IsPlanOf s plan.now }
    requires next { AreNext plan.now.groups next.now }
    ensures { IfOk result (λ order. IsSerial plan.now order.items) }
{
    let count = plan.len();
    let mut awaited = all_awaited(alloc, plan)?;
    let mut taken = marks(alloc, count as usize)?;
    let mut hints = all_marked(alloc, count)?;
    take_all(alloc, plan, next, &mut awaited, &mut taken, &mut hints)
}
