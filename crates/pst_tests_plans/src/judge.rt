//! Whether what a run left behind is right: its trace, and the calls of each lane.
ghost use Rattle.pst_scen.specs.Plans.{IsPlanOf};
ghost use Rattle.pst_order.specs.Built.{IsBuilt};

use pst_book::Book;
use pst_check::{Verdict, check};
use pst_scen::{Event, Plan, Scenario, prefixes_are_legal};
use pst_target::{Call, ScriptTarget};

/// What the trace of a book comes to.
pub fn verdict(scenario: &Scenario, plan: &Plan, book: &Book<'_>) -> Verdict
    requires built { IsBuilt scenario.now }
    requires planned { IsPlanOf scenario.now plan.now }
{
    prefixes_are_legal();
    let events = book.trace();
    check(scenario, plan, events)
}

// How many calls the body of the action makes.
fn count_of(counts: &[u32], action: u32) -> usize {
    counts.get(action as usize).copied().unwrap_or(0) as usize
}

// Whether the call is one of the action's, answered with the lane's number.
fn is_of(call: &Call, lane: u32, action: u32) -> bool {
    call.answer == i64::from(lane) && call.arguments.as_slice() == [i64::from(action)].as_slice()
}

// What stands behind so many calls of the action; none where others stand there.
fn calls_behind(calls: &[Call], lane: u32, action: u32, count: usize) -> Option<&[Call]> {
    let (own, behind) = calls.split_at_checked(count)?;
    for call in own {
        if !is_of(call, lane, action) {
            return None;
        }
    }
    Some(behind)
}

// What stands behind the calls of the action, and whether its body broke off: behind all of them, or
// else behind so many, if any are named.
fn body_behind(
    calls: &[Call],
    lane: u32,
    action: u32,
    count: usize,
    part: Option<usize>,
) -> Option<(&[Call], bool)> {
    if let Some(behind) = calls_behind(calls, lane, action, count) {
        return Some((behind, false));
    }
    let behind = calls_behind(calls, lane, action, part?)?;
    Some((behind, true))
}

// The action that the event starts on the lane.
fn started_on(event: Event, lane: u32) -> Option<u32> {
    match event {
        Event::Start { act, lane: on, .. } if on == lane => Some(act),
        _ => None,
    }
}

// Whether the calls are those of the actions that start on the lane in the events. Of the last one there
// may be so many, if a number is named.
fn are_calls(
    trace: &[Event],
    lane: u32,
    calls: &[Call],
    counts: &[u32],
    part: Option<usize>,
) -> bool {
    let mut left = calls;
    let mut broke = false;
    for event in trace {
        if let Some(action) = started_on(*event, lane) {
            if broke {
                return false;
            }
            match body_behind(left, lane, action, count_of(counts, action), part) {
                Some((behind, is_part)) => {
                    left = behind;
                    broke = is_part;
                }
                None => return false,
            }
        }
    }
    left.is_empty()
}

// How many calls of a body that broke off a lane may have: so many where it failed, and none elsewhere.
fn part_on(lane: u32, failed: Option<(u32, usize)>) -> Option<usize> {
    let (on, made) = failed?;
    Some(if on == lane { made } else { 0 })
}

/// Whether each lane's calls are those of the actions that start there; where a lane failed behind so
/// many calls of a body, all or all but the last, and on that lane up to the call.
pub fn have_calls(
    trace: &[Event],
    lanes: &[ScriptTarget],
    counts: &[u32],
    failed: Option<(u32, usize)>,
) -> bool {
    for (number, target) in lanes.iter().enumerate() {
        let lane = u32::try_from(number).unwrap_or(u32::MAX);
        if !are_calls(trace, lane, target.calls(), counts, part_on(lane, failed)) {
            return false;
        }
    }
    true
}
