//! What is answered of a model.
ghost use Rattle.std.specs.Prelude.{◌≡◌, ◌<◌, ◌^◌, ◌-◌, List, [], ◌∷◌, nat_eq, IfOk, IfErr, string_bytes};
ghost use Rattle.std.specs.List.{count_by};
ghost use Rattle.pst_target.specs.declared.call.Call.{Call as Answered};
ghost use Rattle.pst_model.specs.ModelView.{view_model};
ghost use Rattle.pst_model.specs.Sound.{IsSound};
ghost use Rattle.pst_built.specs.Laws.{IsConcreteRoot};
ghost use Rattle.pst_body.specs.Doing.{with_calls};
ghost use Rattle.pst_outcome.specs.Texts as Texts;
ghost use Rattle.pst_run_alone.specs.Lanes.{lane as lane_of};
ghost use Rattle.pst_outcome.specs.Tasks.{FitsLanes, IsSweep};
ghost use Rattle.pst_outcome.specs.Models.{OfModel};
ghost use Rattle.pst_model_answers.specs.Replies.{Says, SaysEnd};

use crate::found::reply_to_found;
use pst_base::{Names, NoMemory};
use pst_built::whole_readings_are_built;
use pst_model::Model;
use pst_outcome::{Answer, Reply, Task};
use pst_search::{SearchEnd, search};
use pst_target::Target;
use std::alloc::Global;

// The reply where no scenario with so few inferred actions is legal.
fn no_scenario(alloc: Global, infer: u32) -> Result<Reply, NoMemory>
    ensures { IfOk result (Says Answer.NoScenario (Texts.no_scenario_text infer)) }
{
    let text = format!(in alloc; "noscenario {infer}\n")?;
    Ok(Reply {
        answer: Answer::NoScenario,
        text,
    })
}

// The reply where the budget is spent in that level.
fn spent(alloc: Global, level: u32) -> Result<Reply, NoMemory>
    ensures { IfOk result (Says (Answer.Budget level) (Texts.budget_text level)) }
{
    let text = format!(in alloc; "budget {level}\n")?;
    Ok(Reply {
        answer: Answer::Budget { level },
        text,
    })
}

/// The reply where the search gave no scenario with so few inferred actions.
pub fn reply_to_search_end(alloc: Global, infer: u32, end: SearchEnd) -> Result<Reply, NoMemory>
    ensures { IfOk result (SaysEnd infer end) }
{
    match end {
        SearchEnd::NoScenario => no_scenario(alloc, infer),
        SearchEnd::Budget { level } => spent(alloc, level),
        SearchEnd::NoMemory => Err(NoMemory),
    }
}

/// What is answered of the model of sources, and the text that is to be written for it: its first legal
/// scenario is sought and run on the lane, a generated model's too, its header is printed, a trace is
/// judged against it, what its actions ask for is placed, or lanes get programs for it.
///
/// The model is sound, the root is an action type that isn't abstract, the trace has fewer than
/// 2^32 - 2 line feeds, no more than one lane is asked for, and no sweep. The lane is called by runs
/// alone. Where memory runs out, the calls made stay in the lane's list.
pub fn answer_model<T: Target>(
    alloc: Global,
    names: &Names,
    model: &Model,
    root: u32,
    task: Task,
    trace: &[u8],
    lane: &mut T,
) -> Result<Reply, NoMemory>
    requires sound { IsSound (view_model model.now) }
    requires concrete { IsConcreteRoot (view_model model.now) root }
    requires few { count_by (nat_eq 10) trace.now < 2 ^ 32 - 2 }
    requires alone { FitsLanes 1 task.work }
    requires unswept { IsSweep task.work → ⊥ }
    ensures owed { IfOk result (λ reply. OfModel names.now (view_model model.now) root task trace.now (lane_of (T.calls lane.old) (T.calls lane.new) (T.faults lane.old) (T.faults lane.new) ∷ []) reply.answer (string_bytes reply.text)) }
    ensures memory { IfErr result (λ e. (made : List Answered) × (T.calls lane.new ≡ with_calls (T.calls lane.old) made)) }
{
    whole_readings_are_built();
    match search(alloc, model, root, task.seed, task.infer, task.budget) {
        Ok((scenario, plan)) => reply_to_found(
            alloc, names, model, &scenario, &plan, task.work, trace, lane,
        ),
        Err(end) => reply_to_search_end(alloc, task.infer, end),
    }
}
