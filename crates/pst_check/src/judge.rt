//! The least rule that a block breaks.
ghost use Rattle.std.specs.Prelude.{◌≡◌, ◌<◌, ◌↔◌, length, IsTrue, MatchOption};
ghost use Rattle.pst_scen.specs.Laws.{IsPreorder, HasOneLeafEach};
ghost use Rattle.pst_scen.specs.Plans.{IsPlanOf};
ghost use Rattle.pst_scen.specs.Trace.{Ends};
ghost use Rattle.pst_scen.specs.Judging.{Breaks, BreaksLeast};
ghost use Rattle.pst_by_rule.specs.Blocks.{starts_in, block_of};
ghost use Rattle.pst_check.specs.Tests.{AreInside};
ghost use Rattle.pst_check.specs.Verdicts.{IsFreeBelow, IsUnbroken};

use crate::group::is_group;
use crate::past::{Past, runs};
use crate::rules::{
    any_conflict, any_held, any_in_the_way, any_other_writer, any_producer_open, any_reader_open,
    any_started, any_statement_open, names_twice,
};
use pst_order::{groups_are_whole, members_are_those, whole_is_sound};
use pst_scen::{Event, Plan, Scenario, before_is_never_itself};

/// Whether the starts aren't those of one whole group, ascending.
fn breaks_group(scenario: &Scenario, plan: &Plan, past: &Past<'_>, part: &[Event]) -> bool
    requires planned { IsPlanOf scenario.now plan.now }
    requires some { 0 < length part.now }
    ensures { IsTrue result ↔ Breaks scenario.now past.now 2 (starts_in part.now) }
{
    members_are_those();
    groups_are_whole();
    !is_group(plan, part)
}

/// Whether an action has started before.
fn breaks_once(scenario: &Scenario, past: &Past<'_>, part: &[Event]) -> bool
    ensures { IsTrue result ↔ Breaks scenario.now past.now 3 (starts_in part.now) }
{
    any_started(past, part)
}

/// Whether a lane is busy or is named twice.
fn breaks_lanes(scenario: &Scenario, past: &Past<'_>, part: &[Event]) -> bool
    ensures { IsTrue result ↔ Breaks scenario.now past.now 4 (starts_in part.now) }
{
    if any_held(past, part) {
        return true;
    }
    names_twice(part)
}

/// Whether an action of an earlier statement, which isn't released, hasn't ended.
fn breaks_statements(scenario: &Scenario, plan: &Plan, past: &Past<'_>, part: &[Event]) -> bool
    requires planned { IsPlanOf scenario.now plan.now }
    requires preorder { IsPreorder scenario.now.nodes }
    requires one_leaf { HasOneLeafEach scenario.now.nodes }
    requires inside { AreInside (length plan.now.groups) part.now }
    ensures { IsTrue result ↔ Breaks scenario.now past.now 5 (starts_in part.now) }
{
    before_is_never_itself();
    whole_is_sound();
    any_statement_open(scenario, plan, past, part)
}

/// Whether the producer of a consumed buffer hasn't ended.
fn breaks_buffers(scenario: &Scenario, plan: &Plan, past: &Past<'_>, part: &[Event]) -> bool
    requires planned { IsPlanOf scenario.now plan.now }
    requires inside { AreInside (length plan.now.groups) part.now }
    ensures { IsTrue result ↔ Breaks scenario.now past.now 6 (starts_in part.now) }
{
    any_producer_open(scenario, past, part)
}

/// Whether the last writer of a state pool that ended isn't the source of an input or the previous
/// writer of an output.
fn breaks_states(scenario: &Scenario, plan: &Plan, past: &Past<'_>, part: &[Event]) -> bool
    requires planned { IsPlanOf scenario.now plan.now }
    requires inside { AreInside (length plan.now.groups) part.now }
    ensures { IsTrue result ↔ Breaks scenario.now past.now 7 (starts_in part.now) }
{
    any_other_writer(scenario, past, part)
}

/// Whether an action conflicts with a running one or with another of the block.
fn breaks_conflicts(scenario: &Scenario, plan: &Plan, past: &Past<'_>, part: &[Event]) -> bool
    requires planned { IsPlanOf scenario.now plan.now }
    requires inside { AreInside (length plan.now.groups) part.now }
    ensures { IsTrue result ↔ Breaks scenario.now past.now 8 (starts_in part.now) }
{
    if any_in_the_way(plan, past, part) {
        return true;
    }
    any_conflict(plan, part)
}

/// Whether another action, which reads an object that an action of the block replaces, hasn't ended.
fn breaks_readers(scenario: &Scenario, plan: &Plan, past: &Past<'_>, part: &[Event]) -> bool
    requires planned { IsPlanOf scenario.now plan.now }
    requires inside { AreInside (length plan.now.groups) part.now }
    ensures { IsTrue result ↔ Breaks scenario.now past.now 11 (starts_in part.now) }
{
    any_reader_open(scenario, past, plan.len(), part)
}

/// The least rule from 3 on that starts break of which all actions are there.
fn broken_inside(scenario: &Scenario, plan: &Plan, past: &Past<'_>, part: &[Event]) -> Option<u8>
    requires planned { IsPlanOf scenario.now plan.now }
    requires preorder { IsPreorder scenario.now.nodes }
    requires one_leaf { HasOneLeafEach scenario.now.nodes }
    requires inside { AreInside (length plan.now.groups) part.now }
    requires free { IsFreeBelow scenario.now past.now (starts_in part.now) 3 }
    ensures { MatchOption result (IsUnbroken scenario.now past.now (starts_in part.now)) (λ rule. BreaksLeast scenario.now past.now rule (starts_in part.now)) }
{
    if breaks_once(scenario, past, part) {
        return Some(3);
    }
    if breaks_lanes(scenario, past, part) {
        return Some(4);
    }
    if breaks_statements(scenario, plan, past, part) {
        return Some(5);
    }
    if breaks_buffers(scenario, plan, past, part) {
        return Some(6);
    }
    if breaks_states(scenario, plan, past, part) {
        return Some(7);
    }
    if breaks_conflicts(scenario, plan, past, part) {
        return Some(8);
    }
    if breaks_readers(scenario, plan, past, part) {
        return Some(11);
    }
    None
}

/// The least rule that starts break.
fn broken_starts(scenario: &Scenario, plan: &Plan, past: &Past<'_>, part: &[Event]) -> Option<u8>
    requires planned { IsPlanOf scenario.now plan.now }
    requires preorder { IsPreorder scenario.now.nodes }
    requires one_leaf { HasOneLeafEach scenario.now.nodes }
    requires some { 0 < length part.now }
    ensures { MatchOption result (IsUnbroken scenario.now past.now (starts_in part.now)) (λ rule. BreaksLeast scenario.now past.now rule (starts_in part.now)) }
{
    if breaks_group(scenario, plan, past, part) {
        return Some(2);
    }
    broken_inside(scenario, plan, past, part)
}

/// The least rule that an end breaks.
fn broken_end(scenario: &Scenario, past: &Past<'_>, act: u32) -> Option<u8>
    ensures { MatchOption result (IsUnbroken scenario.now past.now (Ends act)) (λ rule. BreaksLeast scenario.now past.now rule (Ends act)) }
{
    if runs(past, act) {
        return None;
    }
    Some(9)
}

/// The least rule that the block breaks, behind the events before it.
pub(crate) fn broken(
    scenario: &Scenario,
    plan: &Plan,
    past: &Past<'_>,
    part: &[Event],
) -> Option<u8>
    requires planned { IsPlanOf scenario.now plan.now }
    requires preorder { IsPreorder scenario.now.nodes }
    requires one_leaf { HasOneLeafEach scenario.now.nodes }
    requires some { 0 < length part.now }
    ensures { MatchOption result (IsUnbroken scenario.now past.now (block_of part.now)) (λ rule. BreaksLeast scenario.now past.now rule (block_of part.now)) }
{
    match part[0] {
        Event::Start { .. } => broken_starts(scenario, plan, past, part),
        Event::End { act } => broken_end(scenario, past, act),
    }
}
