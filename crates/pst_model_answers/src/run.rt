//! The run of a scenario.
ghost use Rattle.std.specs.Prelude.{◌≡◌, ℕ, List, IfOk};
ghost use Rattle.pst_model.specs.ModelView.{view_model};
ghost use Rattle.pst_run_alone.specs.Lanes.{lane as lane_of};
ghost use Rattle.pst_outcome.specs.Models.{answer_of_run as answer_of};
ghost use Rattle.pst_model_answers.specs.Ready.{IsReady};
ghost use Rattle.pst_model_answers.specs.Replies.{Replies, Tells, TellsEnd};

use pst_base::{Names, NoMemory};
use pst_exec::RunEnd;
use pst_model::Model;
use pst_outcome::{Answer, Reply, Work};
use pst_run_alone::{RunAnswer, ShownRun, show_end, show_run};
use pst_scen::{Plan, Scenario};
use pst_target::Target;
use std::alloc::Global;

// The answer of the program to a run.
fn answer_of_run(answer: RunAnswer) -> Answer
    ensures { result ≡ answer_of answer }
{
    match answer {
        RunAnswer::Done { actions } => Answer::Done { actions },
        RunAnswer::Narrow { need, have } => Answer::Narrow { need, have },
        RunAnswer::TargetFault { lane, action, call } => Answer::TargetFault { lane, action, call },
        RunAnswer::BodyTrap { lane, action, kind } => Answer::BodyTrap { lane, action, kind },
    }
}

/// The reply that tells what is shown of a run.
pub fn reply_of(shown: ShownRun) -> Reply
    ensures { Tells shown result }
{
    Reply {
        answer: answer_of_run(shown.answer),
        text: shown.text,
    }
}

/// The reply to a run that wasn't whole.
pub fn reply_to_end(
    alloc: Global,
    names: &Names,
    model: &Model,
    scenario: &Scenario,
    stop: RunEnd<'_>,
) -> Result<Reply, NoMemory>
    ensures { IfOk result (TellsEnd names.now (view_model model.now) scenario.now stop.entry) }
{
    let shown = show_end(alloc, names, model, scenario, stop)?;
    Ok(reply_of(shown))
}

/// Runs the scenario on one lane, and prints its trace.
pub(crate) fn reply_to_run<T: Target>(
    alloc: Global,
    names: &Names,
    model: &Model,
    scenario: &Scenario,
    plan: &Plan,
    lane: &mut T,
) -> Result<Reply, NoMemory>
    requires { IsReady (view_model model.now) scenario.now plan.now }
    ensures { (trace : List ℕ) → Replies names.now (view_model model.now) scenario.now plan.now trace (lane_of (T.calls lane.old) (T.calls lane.new) (T.faults lane.old) (T.faults lane.new)) (Work.Run 1) result }
{
    let shown = show_run(alloc, names, model, scenario, plan, lane)?;
    Ok(reply_of(shown))
}
