//! What is done with a scenario that was found.
ghost use Rattle.std.specs.Prelude.{◌≡◌, ◌<◌, ◌≤◌, ◌+◌, ◌^◌, ◌-◌, [], length, nat_eq, IfOk, string_bytes};
ghost use Rattle.std.specs.List.{count_by};
ghost use Rattle.pst_model.specs.ModelView.{view_model};
ghost use Rattle.pst_trace_texts.specs.declared.last.Last.TheVariants.{Solved as WasSolved};
ghost use Rattle.pst_trace_texts.specs.Texts.{trace_text};
ghost use Rattle.pst_run_alone.specs.Lanes.{lane as lane_of};
ghost use Rattle.pst_outcome.specs.Tasks.{FitsLanes};
ghost use Rattle.pst_outcome.specs.Models.{answer_of_check as answer_of, answer_of_places as answer_of_placing, answer_of_programs as answer_of_programming, IsSought};
ghost use Rattle.pst_model_answers.specs.Ready.{IsReady};
ghost use Rattle.pst_model_answers.specs.Replies.{Says, SaysCheck, SaysPlaces, SaysPrograms, Replies};

use crate::counts::reply_to_counts;
use crate::run::reply_to_run;
use pst_base::{Names, NoMemory};
use pst_model::Model;
use pst_outcome::{Answer, Reply, Space, Work};
use pst_place_answers::{PlaceAnswer, show_places};
use pst_scen::{Plan, Scenario};
use pst_scenario_answers::{CheckAnswer, checked, solved_text};
use pst_static_answers::{StaticAnswer, show_static};
use pst_target::Target;
use std::alloc::Global;

// The answer of the program to a trace.
fn answer_of_check(answer: CheckAnswer) -> Answer
    ensures { result ≡ answer_of answer }
{
    match answer {
        CheckAnswer::Whole => Answer::Whole,
        CheckAnswer::Prefix => Answer::Prefix,
        CheckAnswer::BadTrace { line } => Answer::BadTrace { line },
        CheckAnswer::Illegal { line, rule } => Answer::Illegal { line, rule },
    }
}

// The reply that prints the header of the scenario.
fn reply_to_solve(
    alloc: Global,
    names: &Names,
    model: &Model,
    scenario: &Scenario,
) -> Result<Reply, NoMemory>
    requires { length scenario.now.actions < 2 ^ 31 }
    ensures { IfOk result (Says (Answer.Solved (length scenario.now.actions)) (trace_text names.now (view_model model.now) scenario.now [] WasSolved)) }
{
    let actions = scenario.actions.as_slice().len() as u32;
    let text = solved_text(alloc, names, model, scenario)?;
    Ok(Reply {
        answer: Answer::Solved { actions },
        text,
    })
}

// The answer of the program to places.
fn answer_of_places(answer: PlaceAnswer) -> Answer
    ensures { result ≡ answer_of_placing answer }
{
    match answer {
        PlaceAnswer::Placed { asks } => Answer::Placed { asks },
        PlaceAnswer::NoRoom { action } => Answer::NoRoom { action },
    }
}

// The reply that places what the actions ask for.
fn reply_to_place(
    alloc: Global,
    names: &Names,
    model: &Model,
    scenario: &Scenario,
    plan: &Plan,
    space: Space,
) -> Result<Reply, NoMemory>
    requires ready { IsReady (view_model model.now) scenario.now plan.now }
    requires room { space.base + space.size ≤ 2 ^ 63 }
    ensures { IfOk result (SaysPlaces names.now (view_model model.now) scenario.now plan.now space) }
{
    let shown = show_places(alloc, names, model, scenario, plan, space)?;
    Ok(Reply {
        answer: answer_of_places(shown.answer),
        text: shown.text,
    })
}

// The answer of the program to programs of lanes.
fn answer_of_programs(answer: StaticAnswer) -> Answer
    ensures { result ≡ answer_of_programming answer }
{
    match answer {
        StaticAnswer::Static { instructions } => Answer::Static { instructions },
        StaticAnswer::Narrow { need, have } => Answer::Narrow { need, have },
    }
}

// The reply that gives programs to so many lanes.
fn reply_to_static(
    alloc: Global,
    names: &Names,
    model: &Model,
    scenario: &Scenario,
    plan: &Plan,
    over: u32,
) -> Result<Reply, NoMemory>
    requires ready { IsReady (view_model model.now) scenario.now plan.now }
    requires lanes { (1 ≤ over) × (over ≤ 16) }
    ensures { IfOk result (SaysPrograms names.now (view_model model.now) scenario.now plan.now over) }
{
    let shown = show_static(alloc, names, model, scenario, plan, over)?;
    Ok(Reply {
        answer: answer_of_programs(shown.answer),
        text: shown.text,
    })
}

// The reply to a trace.
fn reply_to_check(
    alloc: Global,
    names: &Names,
    model: &Model,
    scenario: &Scenario,
    plan: &Plan,
    trace: &[u8],
) -> Result<Reply, NoMemory>
    requires ready { IsReady (view_model model.now) scenario.now plan.now }
    requires few { count_by (nat_eq 10) trace.now < 2 ^ 32 - 2 }
    ensures { IfOk result (SaysCheck names.now (view_model model.now) scenario.now trace.now) }
{
    let answer = checked(alloc, names, model, scenario, plan, trace)?;
    let text = answer.text(alloc)?;
    Ok(Reply {
        answer: answer_of_check(answer),
        text,
    })
}

/// The reply where the scenario was found: it is run on one lane, printed, compared with the trace,
/// what its actions ask for is placed, or lanes get programs for it.
pub(crate) fn reply_to_found<T: Target>(
    alloc: Global,
    names: &Names,
    model: &Model,
    scenario: &Scenario,
    plan: &Plan,
    work: Work,
    trace: &[u8],
    lane: &mut T,
) -> Result<Reply, NoMemory>
    requires ready { IsReady (view_model model.now) scenario.now plan.now }
    requires sought { IsSought work }
    requires alone { FitsLanes 1 work }
    requires few { count_by (nat_eq 10) trace.now < 2 ^ 32 - 2 }
    ensures { Replies names.now (view_model model.now) scenario.now plan.now trace.now (lane_of (T.calls lane.old) (T.calls lane.new) (T.faults lane.old) (T.faults lane.new)) work result }
{
    match work {
        Work::Run { lanes: _one } => reply_to_run(alloc, names, model, scenario, plan, lane),
        Work::Solve => reply_to_solve(alloc, names, model, scenario),
        Work::Check => reply_to_check(alloc, names, model, scenario, plan, trace),
        Work::Generate { size, lanes: _one } => {
            reply_to_counts(alloc, names, model, scenario, plan, size, lane)
        }
        Work::Place { space } => reply_to_place(alloc, names, model, scenario, plan, space),
        Work::Static { over } => reply_to_static(alloc, names, model, scenario, plan, over),
        Work::Sweep { .. } => unreachable!(),
    }
}
