//! The run of a generated model, which counts the actions that ended.
ghost use Rattle.std.specs.Prelude.{◌≡◌, ◌<◌, ◌^◌, ℕ, List, length, codes, IfOk};
ghost use Rattle.pst_model.specs.ModelView.{view_model};
ghost use Rattle.pst_trace_texts.specs.Named.{name};
ghost use Rattle.pst_generated.specs.Generated.{counts_text as text_of_counts};
ghost use Rattle.pst_run_alone.specs.Lanes.{lane as lane_of};
ghost use Rattle.pst_outcome.specs.Models.{is_of_type as has_type, ends_type as ends_that_type, count_ended as count_of_ended};
ghost use Rattle.pst_model_answers.specs.Ready.{IsReady};
ghost use Rattle.pst_model_answers.specs.Replies.{Says, Replies};

use crate::run::reply_to_end;
use pst_base::{NameId, Names, NoMemory};
use pst_exec::run_one;
use pst_generated::counts_text;
use pst_model::Model;
use pst_outcome::{Answer, Reply, Work};
use pst_scen::{Act, Event, Plan, Scenario};
use pst_target::Target;
use std::alloc::Global;

// The text of a name; empty where there is none of that number.
fn name_of(names: &Names, id: NameId) -> &str
    ensures { result.now ≡ name names.now id }
{
    if id.0 < names.len() {
        names.text(id)
    } else {
        ""
    }
}

// Whether the action is of a type of that name.
fn is_of_type(names: &Names, model: &Model, act: &Act, type_name: &str) -> bool
    ensures { result ≡ has_type names.now (view_model model.now) type_name.now act.now }
{
    match model.actions.get(act.action as usize) {
        Some(declared) => name_of(names, declared.name).as_bytes() == type_name.as_bytes(),
        None => false,
    }
}

// Whether an action of that type ended.
fn ends_type(
    names: &Names,
    model: &Model,
    scenario: &Scenario,
    type_name: &str,
    event: Event,
) -> bool
    ensures { result ≡ ends_that_type names.now (view_model model.now) scenario.now type_name.now event }
{
    match event {
        Event::Start { .. } => false,
        Event::End { act } => match scenario.actions.as_slice().get(act as usize) {
            Some(ended) => is_of_type(names, model, ended, type_name),
            None => false,
        },
    }
}

// How many actions of that type ended.
fn count_ended(
    names: &Names,
    model: &Model,
    scenario: &Scenario,
    type_name: &str,
    events: &[Event],
) -> u32
    requires { length events.now < 2 ^ 32 }
    ensures { result ≡ count_of_ended names.now (view_model model.now) scenario.now events.now type_name.now }
{
    events
        .iter()
        .filter(|event| ends_type(names, model, scenario, type_name, **event))
        .count() as u32
}

/// The reply to a run of a generated model of that size that was whole: it counts the actions that
/// ended.
pub fn reply_to_whole(
    alloc: Global,
    names: &Names,
    model: &Model,
    scenario: &Scenario,
    size: u32,
    events: &[Event],
) -> Result<Reply, NoMemory>
    requires small { length scenario.now.actions < 2 ^ 31 }
    requires few { length events.now < 2 ^ 32 }
    ensures { IfOk result (Says (Answer.Done (length scenario.now.actions)) (text_of_counts size
        (count_of_ended names.now (view_model model.now) scenario.now events.now (codes "make"))
        (count_of_ended names.now (view_model model.now) scenario.now events.now (codes "take"))
        (length scenario.now.actions))) }
{
    let make = count_ended(names, model, scenario, "make", events);
    let take = count_ended(names, model, scenario, "take", events);
    let actions = scenario.actions.as_slice().len() as u32;
    let text = counts_text(alloc, size, make, take, actions)?;
    Ok(Reply {
        answer: Answer::Done { actions },
        text,
    })
}

/// Runs the scenario on one lane, of a generated model of that size, and counts the actions that ended.
pub(crate) fn reply_to_counts<T: Target>(
    alloc: Global,
    names: &Names,
    model: &Model,
    scenario: &Scenario,
    plan: &Plan,
    size: u32,
    lane: &mut T,
) -> Result<Reply, NoMemory>
    requires { IsReady (view_model model.now) scenario.now plan.now }
    ensures { (trace : List ℕ) → Replies names.now (view_model model.now) scenario.now plan.now trace (lane_of (T.calls lane.old) (T.calls lane.new) (T.faults lane.old) (T.faults lane.new)) (Work.Generate size 1) result }
{
    match run_one(alloc, model, scenario, plan, lane) {
        Ok(book) => reply_to_whole(alloc, names, model, scenario, size, book.trace()),
        Err(stop) => reply_to_end(alloc, names, model, scenario, stop),
    }
}
