//! Runs on several lanes, and what they come to.
ghost use Rattle.std.specs.Prelude.{◌≤◌};
ghost use Rattle.pst_model.specs.ModelView.{view_model};
ghost use Rattle.pst_model.specs.Sound.{IsSound};
ghost use Rattle.pst_body.specs.Ran.{HasTypes};
ghost use Rattle.pst_scen.specs.Plans.{IsPlanOf};
ghost use Rattle.pst_order.specs.Built.{IsBuilt};

use crate::judge::{have_calls, verdict};
use pst_book::Book;
use pst_check::Verdict;
use pst_exec::RunEnd;
use pst_model::Model;
use pst_run_many::run_many;
use pst_scen::{Plan, Scenario};
use pst_target::{Gate, OpenGate, ScriptTarget};
use std::alloc::{AllocError, Global};
use std::sync::Wait;
use std::thread::Threads;

/// Which lane fails, and at which of its calls, counted from 1.
#[derive(Clone, Copy)]
pub struct Failing {
    /// The lane.
    pub lane: u32,
    /// The call; at 0 none fails.
    pub call: u64,
}

/// No lane fails.
pub const NOWHERE: Failing = Failing { lane: 0, call: 0 };

// Lanes that answer their numbers, of which one fails.
fn lanes_of(alloc: Global, count: u32, failing: Failing) -> Result<Vec<ScriptTarget>, AllocError> {
    let mut lanes = Vec::new(alloc);
    for lane in 0..count {
        let call = if failing.lane == lane {
            failing.call
        } else {
            0
        };
        let answers = Vec::from_slice(alloc, &[i64::from(lane)])?;
        lanes.push(ScriptTarget::new(alloc, answers, call))?;
    }
    Ok(lanes)
}

// What a run comes to that was whole.
fn whole_is(
    scenario: &Scenario,
    plan: &Plan,
    lanes: &[ScriptTarget],
    counts: &[u32],
    book: &Book<'_>,
) -> &'static str
    requires built { IsBuilt scenario.now }
    requires planned { IsPlanOf scenario.now plan.now }
{
    let is_whole = verdict(scenario, plan, book) == Verdict::Whole;
    if is_whole && have_calls(book.trace(), lanes, counts, None) {
        "done"
    } else {
        "wrongly done"
    }
}

// What a run comes to in which that lane failed in the action, behind so many calls of its body.
fn fault_is(
    scenario: &Scenario,
    plan: &Plan,
    lanes: &[ScriptTarget],
    counts: &[u32],
    book: &Book<'_>,
    lane: u32,
    action: u32,
    made: u32,
) -> &'static str
    requires built { IsBuilt scenario.now }
    requires planned { IsPlanOf scenario.now plan.now }
{
    let is_front = verdict(scenario, plan, book) == Verdict::Prefix;
    let failed = Some((lane, made as usize));
    let runs = book.running_on(lane) == Some(action);
    if is_front && runs && have_calls(book.trace(), lanes, counts, failed) {
        "fault"
    } else {
        "wrong fault"
    }
}

// What a run comes to.
fn judged(
    scenario: &Scenario,
    plan: &Plan,
    lanes: &[ScriptTarget],
    counts: &[u32],
    failing: Failing,
    end: Result<Book<'_>, RunEnd<'_>>,
) -> &'static str
    requires built { IsBuilt scenario.now }
    requires planned { IsPlanOf scenario.now plan.now }
{
    match end {
        Ok(book) => whole_is(scenario, plan, lanes, counts, &book),
        Err(RunEnd::Narrow { .. }) => "narrow",
        Err(
            RunEnd::TargetFault {
                lane,
                action,
                call,
                book,
            },
        ) => {
            if lane != failing.lane {
                return "fault elsewhere";
            }
            let made = call.saturating_sub(1);
            fault_is(scenario, plan, lanes, counts, &book, lane, action, made)
        }
        Err(RunEnd::BodyTrap { .. }) => "trap",
        Err(RunEnd::NoMemory) => "no memory",
    }
}

/// What a run on so many lanes comes to, where the body of each action makes so many calls: `done`,
/// `fault`, `narrow`, `trap` or `no memory`, or that something is wrong.
pub fn run_once<G: Gate + Sync, R: Threads + Wait + Sync>(
    rt: &R,
    alloc: Global,
    model: &Model,
    scenario: &Scenario,
    plan: &Plan,
    count: u32,
    counts: &[u32],
    failing: Failing,
    gate: &G,
) -> Result<&'static str, AllocError>
    requires sound { IsSound (view_model model.now) }
    requires types { HasTypes (view_model model.now) scenario.now }
    requires built { IsBuilt scenario.now }
    requires planned { IsPlanOf scenario.now plan.now }
    requires several { (2 ≤ count) × (count ≤ 16) }
{
    let mut lanes = lanes_of(alloc, count, failing)?;
    if lanes.len() < count as usize {
        return Ok("too few lanes");
    }
    let end = run_many(rt, alloc, model, scenario, plan, &mut lanes, count, gate);
    Ok(judged(scenario, plan, lanes.as_slice(), counts, failing, end))
}

/// `right` where each run on fewer lanes than that is too narrow, and each run on so many or more, up to
/// 16, is whole; or what another came to.
pub fn run_every<R: Threads + Wait + Sync>(
    rt: &R,
    alloc: Global,
    model: &Model,
    scenario: &Scenario,
    plan: &Plan,
    least: u32,
    counts: &[u32],
) -> Result<&'static str, AllocError>
    requires sound { IsSound (view_model model.now) }
    requires types { HasTypes (view_model model.now) scenario.now }
    requires built { IsBuilt scenario.now }
    requires planned { IsPlanOf scenario.now plan.now }
{
    for count in 2..17 {
        let found = run_once(
            rt, alloc, model, scenario, plan, count, counts, NOWHERE, &OpenGate,
        )?;
        let owed = if count < least { "narrow" } else { "done" };
        if found != owed {
            return Ok(found);
        }
    }
    Ok("right")
}

// How many calls all bodies make together.
fn sum_of(counts: &[u32]) -> u32 {
    let mut sum = 0u32;
    for count in counts {
        sum = sum.saturating_add(*count);
    }
    sum
}

/// `right` where each run in which one of the lanes fails at one of the calls that it may make ends with
/// that fault, or was whole since the lane made fewer; or what another came to.
pub fn run_failing<R: Threads + Wait + Sync>(
    rt: &R,
    alloc: Global,
    model: &Model,
    scenario: &Scenario,
    plan: &Plan,
    count: u32,
    counts: &[u32],
) -> Result<&'static str, AllocError>
    requires sound { IsSound (view_model model.now) }
    requires types { HasTypes (view_model model.now) scenario.now }
    requires built { IsBuilt scenario.now }
    requires planned { IsPlanOf scenario.now plan.now }
    requires several { (2 ≤ count) × (count ≤ 16) }
{
    let most = sum_of(counts).saturating_add(1);
    for number in 0..most.saturating_mul(count) {
        let failing = Failing {
            lane: number.checked_div(most).unwrap_or(0),
            call: u64::from(number.checked_rem(most).unwrap_or(0)).wrapping_add(1),
        };
        let found = run_once(
            rt, alloc, model, scenario, plan, count, counts, failing, &OpenGate,
        )?;
        if found != "fault" && found != "done" {
            return Ok(found);
        }
    }
    Ok("right")
}
