//! Runs of scenarios with bodies, on one lane.
ghost use Rattle.pst_scen.specs.Plans.{IsPlanOf};
ghost use Rattle.pst_order.specs.Built.{IsBuilt};

use crate::runs::write_trace;
use pst_book::Book;
use pst_exec::{RunEnd, run_one};
use pst_scen::{Plan, Scenario};
use pst_sound::sound;
use pst_target::{Call, ScriptTarget};
use pst_tests_bodies::has_types;
use pst_tests_scenarios::model_of;
use std::alloc::{AllocError, Global};

// Writes how a run ended, and its trace.
fn write_end(answer: &mut String, end: Result<Book<'_>, RunEnd<'_>>) -> Result<(), AllocError> {
    match end {
        Ok(book) => {
            answer.push_str("done")?;
            write_trace(answer, book.trace())
        }
        Err(RunEnd::Narrow { need, have }) => write!(answer, "narrow {need} {have}"),
        Err(
            RunEnd::TargetFault {
                lane,
                action,
                call,
                book,
            },
        ) => {
            write!(answer, "fault {lane} {action} {call}")?;
            write_trace(answer, book.trace())
        }
        Err(
            RunEnd::BodyTrap {
                lane,
                action,
                kind,
                book,
            },
        ) => {
            write!(answer, "trap {lane} {action} {kind}")?;
            write_trace(answer, book.trace())
        }
        Err(RunEnd::NoMemory) => answer.push_str("no memory"),
    }
}

// Writes an answered call.
fn write_call(answer: &mut String, call: &Call) -> Result<(), AllocError> {
    let function = call.function;
    write!(answer, ", {function}")?;
    for number in call.arguments.as_slice() {
        write!(answer, " {number}")?;
    }
    Ok(())
}

fn write_calls(answer: &mut String, calls: &[Call]) -> Result<(), AllocError> {
    for call in calls {
        write_call(answer, call)?;
    }
    Ok(())
}

/// Answers these calls on a scenario, its plan and the bodies of its actions, on a lane that answers
/// 0 and whose call of that number fails:
///
/// - `alone`: how the run ended, its trace, and each call of the lane with its arguments.
/// - `twice`: the same of a second run on that lane.
pub fn answer(
    alloc: Global,
    scenario: &Scenario,
    plan: &Plan,
    call: &str,
    failing: u32,
    bodies: &str,
) -> Result<String, AllocError>
    requires built { IsBuilt scenario.now }
    requires planned { IsPlanOf scenario.now plan.now }
{
    let Ok(model) = model_of(alloc, bodies) else {
        return String::from_str(alloc, "no memory");
    };
    if !sound(&model) || !has_types(&model, scenario) {
        return String::from_str(alloc, "no model");
    }
    let mut lane = ScriptTarget::new(alloc, Vec::new(alloc), u64::from(failing));
    if call == "twice" {
        let _first = run_one(alloc, &model, scenario, plan, &mut lane);
    }
    let mut answer = String::new(alloc);
    let end = run_one(alloc, &model, scenario, plan, &mut lane);
    write_end(&mut answer, end)?;
    write_calls(&mut answer, lane.calls())?;
    Ok(answer)
}
