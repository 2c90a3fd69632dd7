//! Runs of a scenario on several lanes.
ghost use Rattle.std.specs.Prelude.{◌≡◌, ◌<◌, ◌≤◌, ◌^◌, ℕ, List, length, drop, IfOk};
ghost use Rattle.pst_model.specs.ModelView.{view_model};
ghost use Rattle.pst_run_alone.specs.Lanes.{lanes_told};
ghost use Rattle.pst_model_answers.specs.Ready.{IsReady};
ghost use Rattle.pst_shared_answers.specs.Replies.{RepliesOn, TellsWhole};

use pst_base::{Names, NoMemory};
use pst_book::Book;
use pst_model::Model;
use pst_model_answers::{reply_of, reply_to_end, reply_to_whole};
use pst_outcome::{Reply, Work};
use pst_run_alone::show_whole;
use pst_run_many::run_many;
use pst_scen::{Plan, Scenario, prefixes_are_legal};
use pst_target::{Gate, Target};
use std::alloc::Global;
use std::sync::Wait;
use std::thread::Threads;

// The reply to a run that was whole.
fn reply_to_book(
    alloc: Global,
    names: &Names,
    model: &Model,
    scenario: &Scenario,
    book: &Book<'_>,
) -> Result<Reply, NoMemory>
    requires { length scenario.now.actions < 2 ^ 31 }
    ensures { IfOk result (TellsWhole names.now (view_model model.now) scenario.now book.now.trace) }
{
    let shown = show_whole(alloc, names, model, scenario, book)?;
    Ok(reply_of(shown))
}

/// Runs the scenario on so many of the first lanes, and prints its trace.
pub(crate) fn reply_to_run<R: Threads + Wait + Sync, T: Target + Send, G: Gate + Sync>(
    rt: &R,
    alloc: Global,
    names: &Names,
    model: &Model,
    scenario: &Scenario,
    plan: &Plan,
    lanes: &mut Vec<T>,
    count: u32,
    gate: &G,
) -> Result<Reply, NoMemory>
    requires ready { IsReady (view_model model.now) scenario.now plan.now }
    requires several { (2 ≤ count) × (count ≤ 16) }
    requires lanes { count ≤ length lanes.old.items }
    ensures replies { (trace : List ℕ) → RepliesOn names.now (view_model model.now) scenario.now plan.now trace (lanes_told T.calls T.faults lanes.old.items lanes.new.items) (Work.Run count) result }
    ensures others { drop count lanes.new.items ≡ drop count lanes.old.items }
    ensures as_many { length lanes.new.items ≡ length lanes.old.items }
{
    prefixes_are_legal();
    match run_many(rt, alloc, model, scenario, plan, lanes, count, gate) {
        Ok(book) => reply_to_book(alloc, names, model, scenario, &book),
        Err(stop) => reply_to_end(alloc, names, model, scenario, stop),
    }
}

/// Runs the scenario, of a generated model of that size, on so many of the first lanes, and counts the
/// actions that ended.
pub(crate) fn reply_to_counts<R: Threads + Wait + Sync, T: Target + Send, G: Gate + Sync>(
    rt: &R,
    alloc: Global,
    names: &Names,
    model: &Model,
    scenario: &Scenario,
    plan: &Plan,
    size: u32,
    lanes: &mut Vec<T>,
    count: u32,
    gate: &G,
) -> Result<Reply, NoMemory>
    requires ready { IsReady (view_model model.now) scenario.now plan.now }
    requires several { (2 ≤ count) × (count ≤ 16) }
    requires lanes { count ≤ length lanes.old.items }
    ensures replies { (trace : List ℕ) → RepliesOn names.now (view_model model.now) scenario.now plan.now trace (lanes_told T.calls T.faults lanes.old.items lanes.new.items) (Work.Generate size count) result }
    ensures others { drop count lanes.new.items ≡ drop count lanes.old.items }
    ensures as_many { length lanes.new.items ≡ length lanes.old.items }
{
    prefixes_are_legal();
    match run_many(rt, alloc, model, scenario, plan, lanes, count, gate) {
        Ok(book) => reply_to_whole(alloc, names, model, scenario, size, book.trace()),
        Err(stop) => reply_to_end(alloc, names, model, scenario, stop),
    }
}
