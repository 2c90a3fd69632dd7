//! The run of a body.
ghost use Rattle.std.specs.Prelude.{◌≡◌, ◌<◌, Some, IsSome, length, map, slice_get};
ghost use Rattle.std.specs.List.{flat_map};
ghost use Rattle.pst_model.specs.ModelView.{view_model, view_action, view_body_step};
ghost use Rattle.pst_model.specs.Sound.{IsSound};
ghost use Rattle.pst_legal.specs.Body.{ranges_in, steps_run, body_of, body_run};
ghost use Rattle.pst_body.specs.Ready.{AreReady};
ghost use Rattle.pst_body.specs.Ran.{HasTypes, Ran};

use crate::ending::BodyEnd;
use crate::memory::Memory;
use crate::need::{add_ranges, most_in_steps};
use crate::site::Site;
use crate::step::run_steps;
use crate::turns::Turns;
use pst_model::{ActionType, BodyStep, Content, Model};
use pst_scen::{Act, Scenario};
use pst_target::Target;
use std::alloc::Global;

/// Runs the steps of the body of an action. Its memory is taken here.
fn run_at<T: Target>(
    alloc: Global,
    site: &Site<'_>,
    steps: &[BodyStep],
    lane: &mut T,
) -> Result<(), BodyEnd>
    requires { AreReady (view_model site.now.model.now) (length site.now.ranges.now) (map view_body_step steps.now) }
    ensures { Ran (λ calls. steps_run (view_model site.now.model.now) site.now.scenario.now calls site.now.number site.now.act.now (map view_body_step steps.now) site.now.ranges.now) (T.calls lane.old) (T.calls lane.new) (T.faults lane.old) (T.faults lane.new) result }
{
    let mut memory = Memory::new(alloc, site.ranges.len(), most_in_steps(steps))?;
    run_steps(steps, site, &Turns::Nothing, &mut memory, lane)
}

/// Runs the body of an atomic action that has these steps.
fn run_steps_of<T: Target>(
    alloc: Global,
    model: &Model,
    scenario: &Scenario,
    number: u32,
    act: &Act,
    steps: &[BodyStep],
    lane: &mut T,
) -> Result<(), BodyEnd>
    requires { AreReady (view_model model.now) (length (flat_map ranges_in (map view_body_step steps.now))) (map view_body_step steps.now) }
    ensures { Ran (λ calls. body_of (view_model model.now) scenario.now calls number act.now (map view_body_step steps.now)) (T.calls lane.old) (T.calls lane.new) (T.faults lane.old) (T.faults lane.new) result }
{
    let mut ranges = Vec::new(alloc);
    add_ranges(&mut ranges, steps)?;
    let site = Site {
        model,
        scenario,
        number,
        act,
        ranges: ranges.as_slice(),
    };
    run_at(alloc, &site, steps, lane)
}

/// The action of that number.
fn act_at(scenario: &Scenario, act: u32) -> &Act
    requires { act < length scenario.now.actions }
    ensures { slice_get scenario.now.actions act ≡ Some result.now }
{
    match scenario.actions.as_slice().get(act as usize) {
        Some(found) => found,
        None => unreachable!(),
    }
}

/// The action type of that number.
fn type_at(model: &Model, number: u32) -> &ActionType
    requires { IsSome (slice_get (map view_action model.now.actions.items) number) }
    ensures { slice_get (map view_action model.now.actions.items) number ≡ Some (view_action result.now) }
{
    match model.actions.get(number as usize) {
        Some(found) => found,
        None => unreachable!(),
    }
}

/// Runs the body of an action of the scenario on a lane.
///
/// The model is sound, and each action of the scenario is of a type that there is. The body is run as `body_run` of
/// `pst_legal` says, with the lane's answers: it ends, it traps, the lane fails at one of its calls, or memory runs out. In
/// each case the calls that were answered stay in the lane's list, behind those before. All memory is taken before the body
/// begins, except what the lane takes for its calls.
pub fn run_body<T: Target>(
    alloc: Global,
    model: &Model,
    scenario: &Scenario,
    act: u32,
    lane: &mut T,
) -> Result<(), BodyEnd>
    requires sound { IsSound (view_model model.now) }
    requires types { HasTypes (view_model model.now) scenario.now }
    requires inside { act < length scenario.now.actions }
    ensures { Ran (body_run (view_model model.now) scenario.now act) (T.calls lane.old) (T.calls lane.new) (T.faults lane.old) (T.faults lane.new) result }
{
    let found = act_at(scenario, act);
    let action = type_at(model, found.action);
    match &action.content {
        Content::Atomic(body) => {
            let steps = body.as_slice();
            run_steps_of(alloc, model, scenario, act, found, steps, lane)
        }
        Content::Compound(_) => Ok(()),
    }
}
