//! Sweeps over seeds.
ghost use Rattle.std.specs.Prelude.{◌≡◌, ◌<◌, ◌≤◌, ◌+◌, ◌^◌, ℕ, List, length, string_bytes, IfOk};
ghost use Rattle.std.specs.List.{All};
ghost use Rattle.pst_sweep_table.specs.declared.row.SweepRow.{SweepRow as SeedRow};
ghost use Rattle.pst_model.specs.ModelView.{view_model};
ghost use Rattle.pst_model.specs.Sound.{IsSound};
ghost use Rattle.pst_built.specs.Laws.{IsConcreteRoot};
ghost use Rattle.pst_run_alone.specs.Lanes.{Lane, AreUncalled};
ghost use Rattle.pst_outcome.specs.Tasks.{FitsLanes, IsSweep};
ghost use Rattle.pst_outcome.specs.Models.{OfModel};
ghost use Rattle.pst_sweep_replies.specs.Replies.{TellsRows, SaysSweep};

use pst_base::{Names, NoMemory};
use pst_model::Model;
use pst_outcome::{Answer, Reply, Task, Work};
use pst_sweep::{Table, sweep};
use pst_sweep_answers::show_sweep;
use std::alloc::Global;
use std::thread::Threads;

// The reply that shows the rows of a table.
fn reply_to_table(
    alloc: Global,
    names: &Names,
    model: &Model,
    table: &Table,
) -> Result<Reply, NoMemory>
    requires types { All (λ (row : SeedRow). length row.uses ≡ length (view_model model.now).actions) table.now.rows.items }
    requires few { length table.now.rows.items < 2 ^ 32 }
    ensures { IfOk result (TellsRows names.now (view_model model.now) table.now.rows.items) }
{
    let shown = show_sweep(alloc, names, model, table)?;
    Ok(Reply {
        answer: Answer::Swept { found: shown.found },
        text: shown.text,
    })
}

// The reply to a sweep over so many seeds from the first on.
fn reply_to_sweep(
    rt: &(impl Threads + Sync),
    alloc: Global,
    names: &Names,
    model: &Model,
    root: u32,
    first: u64,
    count: u32,
    infer: u32,
    budget: u64,
) -> Result<Reply, NoMemory>
    requires sound { IsSound (view_model model.now) }
    requires concrete { IsConcreteRoot (view_model model.now) root }
    requires room { first + count ≤ 2 ^ 64 }
    ensures { IfOk result (SaysSweep names.now (view_model model.now) root infer budget first count) }
{
    let table = sweep(rt, alloc, model, root, first, count, infer, budget)?;
    reply_to_table(alloc, names, model, &table)
}

/// What is answered of the model of sources where many seeds are searched, and the text that is to be
/// written for it: a line for each seed, in their order.
///
/// The model is sound, the root is an action type that isn't abstract, and no seed is above 2^64 - 1.
/// The seeds are searched in several threads where these can be started. No lane is called. It returns.
pub fn answer_sweep(
    rt: &(impl Threads + Sync),
    alloc: Global,
    names: &Names,
    model: &Model,
    root: u32,
    task: Task,
) -> Result<Reply, NoMemory>
    requires sound { IsSound (view_model model.now) }
    requires concrete { IsConcreteRoot (view_model model.now) root }
    requires swept { IsSweep task.work }
    requires fits { FitsLanes 1 task.work }
    ensures { (trace : List ℕ) (lanes : List Lane) → AreUncalled lanes → IfOk result (λ reply. OfModel names.now (view_model model.now) root task trace lanes reply.answer (string_bytes reply.text)) }
{
    match task.work {
        Work::Sweep { first, count } => reply_to_sweep(
            rt,
            alloc,
            names,
            model,
            root,
            first,
            count,
            task.infer,
            task.budget,
        ),
        Work::Run { .. } => unreachable!(),
        Work::Solve => unreachable!(),
        Work::Check => unreachable!(),
        Work::Place { .. } => unreachable!(),
        Work::Generate { .. } => unreachable!(),
        Work::Static { .. } => unreachable!(),
    }
}
