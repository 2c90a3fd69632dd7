//! Judges traces.
ghost use Rattle.std.specs.Prelude.{◌≡◌, ◌<◌, ◌^◌, ◌↔◌, length, take, ℕ, IsTrue};
ghost use Rattle.pst_scen.specs.Laws.{IsPreorder, HasOneLeafEach};
ghost use Rattle.pst_scen.specs.Plans.{IsPlanOf};
ghost use Rattle.pst_scen.specs.Trace.{IsWhole, Ended};
ghost use Rattle.pst_scen.specs.Judging.{AreWholeBlocks};
ghost use Rattle.pst_order.specs.Facts.{LinksStates};
ghost use Rattle.pst_by_rule.specs.Followed.{AreFollowed};
ghost use Rattle.pst_check.specs.Marks.{AreMarks};
ghost use Rattle.pst_check.specs.Verdicts.{IsVerdict, IsCompleted};

use crate::judge::broken;
use crate::laws::unbroken_is_begun;
use crate::marks::{note, unmarked};
use crate::past::{Past, has_ended};
use crate::verdict::Verdict;
use pst_by_rule::{Followed, behind, first_block, follow, front};
use pst_order::{prefix_is_by_rule, rule_fits, rule_is_prefix};
use pst_scen::{Event, Plan, Scenario, prefixes_are_legal};

/// Whether each of so many actions has ended.
fn all_ended(past: &Past<'_>, count: u32) -> bool
    ensures { IsTrue result ↔ ((a : ℕ) → a < count → Ended past.now a) }
{
    for a in 0..count {
        if !has_ended(past, a) {
            return false;
        }
    }
    true
}

/// What is said of events that are all judged.
fn completed(plan: &Plan, past: &Past<'_>) -> Verdict
    ensures { IsCompleted (length plan.now.groups) past.now result }
{
    if all_ended(past, plan.len()) {
        Verdict::Whole
    } else {
        Verdict::Prefix
    }
}

/// Judges the blocks of a trace behind those that were followed, of which the marks tell.
fn check_marked(
    scenario: &Scenario,
    plan: &Plan,
    events: &[Event],
    followed: Followed,
    started: &mut [bool],
    ended: &mut [bool],
) -> Verdict
    requires links { LinksStates scenario.now }
    requires planned { IsPlanOf scenario.now plan.now }
    requires preorder { IsPreorder scenario.now.nodes }
    requires one_leaf { HasOneLeafEach scenario.now.nodes }
    requires small { length scenario.now.actions < 2 ^ 31 }
    requires followed { AreFollowed scenario.now events.now followed.events followed.blocks }
    requires marks { AreMarks (take followed.events events.now) started.old ended.old }
    ensures { IsVerdict scenario.now events.now result }
{
    unbroken_is_begun();
    prefixes_are_legal();
    prefix_is_by_rule();
    rule_fits();
    rule_is_prefix();
    let mut first = followed.events;
    let mut block = followed.blocks as u32;
    'judged: while first < events.len() {
        let rest = behind(events, first);
        let count = first_block(rest);
        let part = front(rest, count);
        let earlier = front(events, first);
        let past = Past::new(earlier, started, ended);
        if let Some(rule) = broken(scenario, plan, &past, part) {
            return Verdict::Illegal { block, rule };
        }
        note(started, ended, part);
        first += count;
        block += 1;
    }
    let all = Past::new(events, started, ended);
    completed(plan, &all)
}

/// Judges a trace, on any number of lanes. It takes no memory. The first blocks that keep the core's
/// rule are followed with counts; those behind them are judged one by one.
///
/// The events are whole blocks, and the plan is the scenario's, which has fewer than 2^31 actions.
/// Links of state references lead to outputs of the same pool, and no two outputs to one pool have the same
/// link. The nodes stand in preorder, and each action has one leaf at most.
pub fn check(scenario: &Scenario, plan: &Plan, events: &[Event]) -> Verdict
    requires links { LinksStates scenario.now }
    requires planned { IsPlanOf scenario.now plan.now }
    requires preorder { IsPreorder scenario.now.nodes }
    requires one_leaf { HasOneLeafEach scenario.now.nodes }
    requires small { length scenario.now.actions < 2 ^ 31 }
    requires blocks { AreWholeBlocks events.now }
    ensures { IsVerdict scenario.now events.now result }
{
    let mut started = unmarked();
    let mut ended = unmarked();
    let followed = follow(plan, events);
    note(&mut started, &mut ended, front(events, followed.events));
    check_marked(scenario, plan, events, followed, &mut started, &mut ended)
}
