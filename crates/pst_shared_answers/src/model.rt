//! What is answered of a model.
ghost use Rattle.std.specs.Prelude.{◌≡◌, ℕ, List, length, drop, string_bytes, IfOk, IfErr};
ghost use Rattle.pst_model.specs.ModelView.{view_model};
ghost use Rattle.pst_model.specs.Sound.{IsSound};
ghost use Rattle.pst_built.specs.Laws.{IsConcreteRoot};
ghost use Rattle.pst_run_alone.specs.Lanes.{lanes_told, HaveMade};
ghost use Rattle.pst_outcome.specs.Tasks.{FitsLanes, IsSeveral};
ghost use Rattle.pst_outcome.specs.Models.{OfModel};

use crate::found::reply_to_found;
use pst_base::{Names, NoMemory};
use pst_built::whole_readings_are_built;
use pst_model::Model;
use pst_model_answers::{reply_to_search_end, search};
use pst_outcome::{Reply, Task};
use pst_target::{Gate, Target};
use std::alloc::Global;
use std::sync::Wait;
use std::thread::Threads;

/// What is answered of the model of sources where its first legal scenario is run on several lanes, and
/// the text that is to be written for it.
///
/// The model is sound, the root is an action type that isn't abstract, and so many lanes are there, of
/// which at most 16 are used: the first ones. Each runs in a thread of its own where one can be started.
/// Where memory runs out, the calls made stay in the lanes' lists. It promises nothing of its return.
pub fn answer_shared<R: Threads + Wait + Sync, T: Target + Send, G: Gate + Sync>(
    rt: &R,
    alloc: Global,
    names: &Names,
    model: &Model,
    root: u32,
    task: Task,
    lanes: &mut Vec<T>,
    gate: &G,
) -> Result<Reply, NoMemory>
    requires sound { IsSound (view_model model.now) }
    requires concrete { IsConcreteRoot (view_model model.now) root }
    requires several { IsSeveral task.work }
    requires fits { FitsLanes 16 task.work × FitsLanes (length lanes.old.items) task.work }
    ensures owed { (trace : List ℕ) → IfOk result (λ reply. OfModel names.now (view_model model.now) root task trace (lanes_told T.calls T.faults lanes.old.items lanes.new.items) reply.answer (string_bytes reply.text)) }
    ensures memory { IfErr result (λ e. HaveMade (lanes_told T.calls T.faults lanes.old.items lanes.new.items)) }
    ensures others { drop 16 lanes.new.items ≡ drop 16 lanes.old.items }
    ensures as_many { length lanes.new.items ≡ length lanes.old.items }
{
    whole_readings_are_built();
    match search(alloc, model, root, task.seed, task.infer, task.budget) {
        Ok((scenario, plan)) => reply_to_found(
            rt, alloc, names, model, &scenario, &plan, task.work, lanes, gate,
        ),
        Err(end) => reply_to_search_end(alloc, task.infer, end),
    }
}
