//! What the cases of the table are answered.
ghost use Rattle.std.specs.Prelude.{◌≤◌};
ghost use Rattle.pst_model.specs.ModelView.{view_model};
ghost use Rattle.pst_model.specs.Sound.{IsSound};
ghost use Rattle.pst_body.specs.Ran.{HasTypes};
ghost use Rattle.pst_scen.specs.Plans.{IsPlanOf};
ghost use Rattle.pst_order.specs.Built.{IsBuilt};

use crate::gates::Meeting;
use crate::threads::{NOWHERE, run_every, run_failing, run_once};
use pst_model::Model;
use pst_scen::{Plan, Scenario};
use pst_sound::sound;
use pst_target::OpenGate;
use pst_tests_bodies::has_types;
use pst_tests_scenarios::{model_of, number};
use std::alloc::{AllocError, Global};
use std::sync::Wait;
use std::thread::Threads;

// How many calls the body of each action makes.
fn counts_of(alloc: Global, calls: &str) -> Result<Vec<u32>, AllocError> {
    let mut counts = Vec::new(alloc);
    for word in calls.split_whitespace() {
        counts.push(number(word))?;
    }
    Ok(counts)
}

// Writes a body that calls `step` with the action's number so many times.
fn add_body(bodies: &mut String, action: usize, count: u32) -> Result<(), AllocError> {
    let sign = if action == 0 { "" } else { ";" };
    write!(bodies, "{sign}{count}")?;
    for _ in 0..count {
        write!(bodies, " 2 0 1 0 {action}")?;
    }
    Ok(())
}

// The bodies, as texts: that of each action calls `step` with the action's number, as often as its count
// says.
fn bodies_of(alloc: Global, counts: &[u32]) -> Result<String, AllocError> {
    let mut bodies = String::new(alloc);
    for (action, count) in counts.iter().enumerate() {
        add_body(&mut bodies, action, *count)?;
    }
    Ok(bodies)
}

// What a run comes to whose lanes all wait at one gate, and whether all came.
fn run_meeting<R: Threads + Wait + Sync>(
    rt: &R,
    alloc: Global,
    model: &Model,
    scenario: &Scenario,
    plan: &Plan,
    count: u32,
    counts: &[u32],
) -> Result<&'static str, AllocError>
    requires sound { IsSound (view_model model.now) }
    requires types { HasTypes (view_model model.now) scenario.now }
    requires built { IsBuilt scenario.now }
    requires planned { IsPlanOf scenario.now plan.now }
    requires several { (2 ≤ count) × (count ≤ 16) }
{
    let gate = Meeting::new(count);
    let found = run_once(
        rt, alloc, model, scenario, plan, count, counts, NOWHERE, &gate,
    )?;
    Ok(if found == "done" && gate.met() {
        "met"
    } else {
        found
    })
}

/// Answers these calls on a scenario and its plan, on so many lanes, where the body of each action makes
/// so many calls:
///
/// - `many`: what the run came to.
/// - `every`: `right` where the runs on 2 to 16 lanes are too narrow below that number, and else whole.
/// - `fails`: `right` where every run in which one of the lanes fails at one of its calls ends rightly.
/// - `meets`: `met` where the run was whole and all lanes came to one gate before any passed it.
pub fn answer<R: Threads + Wait + Sync>(
    rt: &R,
    alloc: Global,
    scenario: &Scenario,
    plan: &Plan,
    call: &str,
    count: u32,
    calls: &str,
) -> Result<&'static str, AllocError>
    requires built { IsBuilt scenario.now }
    requires planned { IsPlanOf scenario.now plan.now }
{
    let counts = counts_of(alloc, calls)?;
    let counts = counts.as_slice();
    let bodies = bodies_of(alloc, counts)?;
    let Ok(model) = model_of(alloc, bodies.as_str()) else {
        return Ok("no memory");
    };
    if !sound(&model) || !has_types(&model, scenario) || count < 2 || count > 16 {
        return Ok("no model");
    }
    match call {
        "every" => run_every(rt, alloc, &model, scenario, plan, count, counts),
        "fails" => run_failing(rt, alloc, &model, scenario, plan, count, counts),
        "meets" => run_meeting(rt, alloc, &model, scenario, plan, count, counts),
        _ => run_once(
            rt, alloc, &model, scenario, plan, count, counts, NOWHERE, &OpenGate,
        ),
    }
}
