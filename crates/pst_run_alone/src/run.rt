//! The run of a scenario on one lane, with its text.
ghost use Rattle.std.specs.Prelude.{◌≡◌, ◌<◌, ◌^◌, length, string_bytes, IfOk};
ghost use Rattle.pst_model.specs.ModelView.{view_model};
ghost use Rattle.pst_model.specs.Sound.{IsSound};
ghost use Rattle.pst_scen.specs.Plans.{IsPlanOf};
ghost use Rattle.pst_order.specs.Facts.{LinksStates};
ghost use Rattle.pst_body.specs.Ran.{HasTypes};
ghost use Rattle.pst_trace_texts.specs.declared.last.Last.TheVariants.{Done as WasDone};
ghost use Rattle.pst_trace_texts.specs.Texts.{trace_text};
ghost use Rattle.pst_run_alone.specs.Shown.{Says, SaysEnd, Shows, narrow_text};

use crate::answer::{RunAnswer, ShownRun};
use pst_base::{Names, NoMemory};
use pst_book::Book;
use pst_exec::{RunEnd, run_one};
use pst_model::Model;
use pst_scen::{Plan, Scenario};
use pst_target::Target;
use pst_trace_texts::Last;
use pst_trace_writer::write_trace;
use std::alloc::Global;

/// How many lanes are needed and there are, as a line.
fn narrow_line(alloc: Global, need: u32, have: u32) -> Result<String, NoMemory>
    ensures { IfOk result (λ text. string_bytes text ≡ narrow_text need have) }
{
    Ok(format!(in alloc; "narrow {need} {have}\n")?)
}

/// The text of the trace of a book, with its last line.
fn trace_of(
    alloc: Global,
    names: &Names,
    model: &Model,
    scenario: &Scenario,
    book: &Book<'_>,
    last: Last,
) -> Result<String, NoMemory>
    ensures { IfOk result (λ text. string_bytes text ≡ trace_text names.now (view_model model.now) scenario.now book.now.trace last) }
{
    write_trace(alloc, names, model, scenario, book.trace(), last)
}

/// The answer of a run that was whole, and its text: the trace.
pub fn show_whole(
    alloc: Global,
    names: &Names,
    model: &Model,
    scenario: &Scenario,
    book: &Book<'_>,
) -> Result<ShownRun, NoMemory>
    requires { length scenario.now.actions < 2 ^ 31 }
    ensures { IfOk result (Says (RunAnswer.Done (length scenario.now.actions)) (trace_text names.now (view_model model.now) scenario.now book.now.trace WasDone)) }
{
    let actions = scenario.actions.as_slice().len() as u32;
    let text = trace_of(alloc, names, model, scenario, book, Last::Done)?;
    Ok(ShownRun {
        answer: RunAnswer::Done { actions },
        text,
    })
}

/// The answer of a run that wasn't whole, and its text: how many lanes it needs and has, or the trace
/// up to the action that failed or trapped.
pub fn show_end(
    alloc: Global,
    names: &Names,
    model: &Model,
    scenario: &Scenario,
    stop: RunEnd<'_>,
) -> Result<ShownRun, NoMemory>
    ensures { IfOk result (SaysEnd names.now (view_model model.now) scenario.now stop.entry) }
{
    match stop {
        RunEnd::Narrow { need, have } => {
            let text = narrow_line(alloc, need, have)?;
            Ok(ShownRun {
                answer: RunAnswer::Narrow { need, have },
                text,
            })
        }
        RunEnd::TargetFault {
            lane,
            action,
            call,
            book,
        } => {
            let last = Last::Fault { lane, action, call };
            let text = trace_of(alloc, names, model, scenario, &book, last)?;
            Ok(ShownRun {
                answer: RunAnswer::TargetFault { lane, action, call },
                text,
            })
        }
        RunEnd::BodyTrap {
            lane,
            action,
            kind,
            book,
        } => {
            let last = Last::Trap { lane, action, kind };
            let text = trace_of(alloc, names, model, scenario, &book, last)?;
            Ok(ShownRun {
                answer: RunAnswer::BodyTrap { lane, action, kind },
                text,
            })
        }
        RunEnd::NoMemory => Err(NoMemory),
    }
}

/// Runs a scenario on one lane, and makes the text of what that came to.
///
/// The model is sound, each action of the scenario is of a type that there is, and the plan is the
/// scenario's, which has fewer than 2^31 actions. Links of state references lead to outputs of the same
/// pool, and no two outputs to one pool have the same link. The answer is `Narrow` exactly where the widest group
/// has more than one member. Where memory runs out, the calls made stay in the lane's list.
pub fn show_run<T: Target>(
    alloc: Global,
    names: &Names,
    model: &Model,
    scenario: &Scenario,
    plan: &Plan,
    lane: &mut T,
) -> Result<ShownRun, NoMemory>
    requires sound { IsSound (view_model model.now) }
    requires types { HasTypes (view_model model.now) scenario.now }
    requires links { LinksStates scenario.now }
    requires planned { IsPlanOf scenario.now plan.now }
    requires small { length scenario.now.actions < 2 ^ 31 }
    ensures { Shows names.now (view_model model.now) scenario.now plan.now (T.calls lane.old) (T.calls lane.new) (T.faults lane.old) (T.faults lane.new) result }
{
    match run_one(alloc, model, scenario, plan, lane) {
        Ok(book) => show_whole(alloc, names, model, scenario, &book),
        Err(stop) => show_end(alloc, names, model, scenario, stop),
    }
}
