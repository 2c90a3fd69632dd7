//! Which rule a block of starts breaks.
ghost use Rattle.std.specs.Prelude.{◌≡◌, ◌<◌, ◌≤◌, ◌↔◌, ℕ, length, IsTrue};
ghost use Rattle.pst_scen.specs.Laws.{IsPreorder, HasOneLeafEach};
ghost use Rattle.pst_scen.specs.Plans.{IsPlanOf};
ghost use Rattle.pst_scen.specs.Trace.{Started, IsHeld};
ghost use Rattle.pst_scen.specs.Rows.{Has};
ghost use Rattle.pst_by_rule.specs.Blocks.{act_of, lane_of};
ghost use Rattle.pst_check.specs.Tests.{AtSome, AreInside, NamesBefore, NamesTwice, HasStatementOpen, HasProducerOpen, HasOtherWriter, HasInTheWay, HasReference, HasReaderOpen};

use crate::past::{Past, has_started, is_held};
use crate::starts::{
    has_in_the_way, has_other_writer, has_producer_open, has_reader_open, has_statement_open,
};
use pst_by_rule::{act_of, lane_of};
use pst_scen::{Event, Plan, Scenario};

/// Whether an action of the block has started before.
pub(crate) fn any_started(past: &Past<'_>, part: &[Event]) -> bool
    ensures { IsTrue result ↔ AtSome part.now (λ e. Started past.now (act_of e)) }
{
    for i in 0..part.len() {
        if has_started(past, act_of(part[i])) {
            return true;
        }
    }
    false
}

/// Whether a running action holds a lane of the block.
pub(crate) fn any_held(past: &Past<'_>, part: &[Event]) -> bool
    ensures { IsTrue result ↔ AtSome part.now (λ e. IsHeld past.now (lane_of e)) }
{
    for i in 0..part.len() {
        if is_held(past, lane_of(part[i])) {
            return true;
        }
    }
    false
}

/// Whether an event before that place names the lane.
fn names_before(part: &[Event], place: usize, lane: u32) -> bool
    requires { place ≤ length part.now }
    ensures { IsTrue result ↔ NamesBefore part.now place lane }
{
    for i in 0..place {
        if lane_of(part[i]) == lane {
            return true;
        }
    }
    false
}

/// Whether a lane is named twice.
pub(crate) fn names_twice(part: &[Event]) -> bool
    ensures { IsTrue result ↔ NamesTwice part.now }
{
    for place in 0..part.len() {
        if names_before(part, place, lane_of(part[place])) {
            return true;
        }
    }
    false
}

/// Whether an action of a statement before one of the block hasn't ended.
pub(crate) fn any_statement_open(
    scenario: &Scenario,
    plan: &Plan,
    past: &Past<'_>,
    part: &[Event],
) -> bool
    requires planned { IsPlanOf scenario.now plan.now }
    requires preorder { IsPreorder scenario.now.nodes }
    requires one_leaf { HasOneLeafEach scenario.now.nodes }
    requires inside { AreInside (length plan.now.groups) part.now }
    ensures { IsTrue result ↔ AtSome part.now (λ e. HasStatementOpen scenario.now past.now (act_of e)) }
{
    for i in 0..part.len() {
        if has_statement_open(scenario, plan, past, act_of(part[i])) {
            return true;
        }
    }
    false
}

/// Whether the producer of a buffer that an action of the block consumes hasn't ended.
pub(crate) fn any_producer_open(scenario: &Scenario, past: &Past<'_>, part: &[Event]) -> bool
    requires { AreInside (length scenario.now.actions) part.now }
    ensures { IsTrue result ↔ AtSome part.now (λ e. HasReference scenario.now (act_of e) (HasProducerOpen past.now)) }
{
    for i in 0..part.len() {
        if has_producer_open(scenario, past, act_of(part[i])) {
            return true;
        }
    }
    false
}

/// Whether the last writer of a state pool isn't the source or previous writer of an action of the
/// block.
pub(crate) fn any_other_writer(scenario: &Scenario, past: &Past<'_>, part: &[Event]) -> bool
    requires { AreInside (length scenario.now.actions) part.now }
    ensures { IsTrue result ↔ AtSome part.now (λ e. HasReference scenario.now (act_of e) (HasOtherWriter scenario.now past.now)) }
{
    for i in 0..part.len() {
        if has_other_writer(scenario, past, act_of(part[i])) {
            return true;
        }
    }
    false
}

/// Whether an action of the block conflicts with a running one.
pub(crate) fn any_in_the_way(plan: &Plan, past: &Past<'_>, part: &[Event]) -> bool
    requires { AreInside (length plan.now.groups) part.now }
    ensures { IsTrue result ↔ AtSome part.now (λ e. HasInTheWay plan.now past.now (act_of e)) }
{
    for i in 0..part.len() {
        if has_in_the_way(plan, past, act_of(part[i])) {
            return true;
        }
    }
    false
}

/// Whether the action conflicts with one of the block.
fn conflicts(plan: &Plan, part: &[Event], a: u32) -> bool
    requires inside { AreInside (length plan.now.groups) part.now }
    requires a_in { a < length plan.now.groups }
    ensures { IsTrue result ↔ AtSome part.now (λ e. Has plan.now.conflict a (act_of e)) }
{
    for i in 0..part.len() {
        if plan.conflict(a, act_of(part[i])) {
            return true;
        }
    }
    false
}

/// Whether two actions of the block conflict.
pub(crate) fn any_conflict(plan: &Plan, part: &[Event]) -> bool
    requires { AreInside (length plan.now.groups) part.now }
    ensures { IsTrue result ↔ AtSome part.now (λ e. AtSome part.now (λ o. Has plan.now.conflict (act_of e) (act_of o))) }
{
    for i in 0..part.len() {
        if conflicts(plan, part, act_of(part[i])) {
            return true;
        }
    }
    false
}

/// Whether another action, which reads an object that an action of the block replaces, hasn't ended.
pub(crate) fn any_reader_open(
    scenario: &Scenario,
    past: &Past<'_>,
    count: u32,
    part: &[Event],
) -> bool
    requires count { count ≡ length scenario.now.actions }
    requires inside { AreInside (length scenario.now.actions) part.now }
    ensures { IsTrue result ↔ AtSome part.now (λ e. HasReference scenario.now (act_of e) (HasReaderOpen scenario.now past.now (act_of e))) }
{
    for i in 0..part.len() {
        if has_reader_open(scenario, past, count, act_of(part[i])) {
            return true;
        }
    }
    false
}
