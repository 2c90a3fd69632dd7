//! What is done with a scenario that was found.
ghost use Rattle.std.specs.Prelude.{◌≡◌, ℕ, List, length, drop};
ghost use Rattle.pst_model.specs.ModelView.{view_model};
ghost use Rattle.pst_run_alone.specs.Lanes.{lanes_told};
ghost use Rattle.pst_outcome.specs.Tasks.{FitsLanes, IsSeveral};
ghost use Rattle.pst_model_answers.specs.Ready.{IsReady};
ghost use Rattle.pst_shared_answers.specs.Replies.{RepliesOn};

use crate::run::{reply_to_counts, reply_to_run};
use pst_base::{Names, NoMemory};
use pst_model::Model;
use pst_outcome::{Reply, Work};
use pst_scen::{Plan, Scenario};
use pst_target::{Gate, Target};
use std::alloc::Global;
use std::sync::Wait;
use std::thread::Threads;

/// The reply where the scenario was found, and is run on several lanes.
pub(crate) fn reply_to_found<R: Threads + Wait + Sync, T: Target + Send, G: Gate + Sync>(
    rt: &R,
    alloc: Global,
    names: &Names,
    model: &Model,
    scenario: &Scenario,
    plan: &Plan,
    work: Work,
    lanes: &mut Vec<T>,
    gate: &G,
) -> Result<Reply, NoMemory>
    requires ready { IsReady (view_model model.now) scenario.now plan.now }
    requires several { IsSeveral work }
    requires fits { FitsLanes 16 work × FitsLanes (length lanes.old.items) work }
    ensures replies { (trace : List ℕ) → RepliesOn names.now (view_model model.now) scenario.now plan.now trace (lanes_told T.calls T.faults lanes.old.items lanes.new.items) work result }
    ensures others { drop 16 lanes.new.items ≡ drop 16 lanes.old.items }
    ensures as_many { length lanes.new.items ≡ length lanes.old.items }
{
    match work {
        Work::Run { lanes: count } => {
            reply_to_run(rt, alloc, names, model, scenario, plan, lanes, count, gate)
        }
        Work::Generate { size, lanes: count } => reply_to_counts(
            rt, alloc, names, model, scenario, plan, size, lanes, count, gate,
        ),
        Work::Solve => unreachable!(),
        Work::Check => unreachable!(),
        Work::Place { space: _ } => unreachable!(),
        Work::Static { .. } => unreachable!(),
        Work::Sweep { .. } => unreachable!(),
    }
}
