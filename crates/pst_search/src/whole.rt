//! What a list of choices comes to that reads a whole scenario.
ghost use Rattle.std.specs.Prelude.{IfOk};
ghost use Rattle.pst_model.specs.ModelView.{view_model};
ghost use Rattle.pst_model.specs.Sound.{IsSound};
ghost use Rattle.pst_built.specs.Laws.{IsConcreteRoot};
ghost use Rattle.pst_list_walk.specs.Walks.{answer};
ghost use Rattle.pst_search_loop.specs.Kept.{IsWhole, Judges};
ghost use Rattle.pst_list_values.specs.Walked.{kept_of};
ghost use Rattle.pst_search.specs.Readings.{IsFound, HasPlan, IsPlanned, PlansWhole};

use crate::judging::{judge, plan_if_any};
use crate::looking::closed;
use crate::planned::Planned;
use pst_base::NoMemory;
use pst_built::{whole_lists_end, whole_readings_are_built};
use pst_graph::plan_of;
use pst_list_values::{copy_scenario, nodes_stand_for_pieces};
use pst_list_walk::ListWalk;
use pst_read_legal::{legal_is_unrefused, planned_readings_are_legal};
use pst_scen::{Plan, Scenario};
use pst_search_loop::Judged;
use std::alloc::Global;

/// The plan of the whole scenario of the list.
pub(crate) fn plan_whole(alloc: Global, lists: &ListWalk<'_>) -> Result<Planned, NoMemory>
    requires { IsWhole (answer lists.now) }
    ensures { IfOk result (λ planned. PlansWhole lists.now planned) }
{
    whole_readings_are_built();
    legal_is_unrefused();
    whole_lists_end();
    let Some(scenario) = lists.scenario() else {
        return Err(NoMemory);
    };
    let plan = plan_if_any(alloc, scenario)?;
    match plan {
        Some(plan) => Ok(Planned::There(plan)),
        None => Ok(Planned::Refused(closed(alloc, lists)?)),
    }
}

/// Whether the whole scenario of the list is legal. Its plan may be known.
pub(crate) fn judge_at(
    alloc: Global,
    lists: &ListWalk<'_>,
    plan: &Option<Plan>,
) -> Result<Judged, NoMemory>
    requires sound { IsSound (view_model lists.now.model) }
    requires concrete { IsConcreteRoot (view_model lists.now.model) lists.now.root }
    requires whole { IsWhole (answer lists.now) }
    requires planned { IsPlanned lists.now plan.now }
    ensures { IfOk result (λ judged. Judges (kept_of lists.now) judged) }
{
    nodes_stand_for_pieces();
    whole_readings_are_built();
    planned_readings_are_legal();
    legal_is_unrefused();
    whole_lists_end();
    let Some(scenario) = lists.scenario() else {
        return Err(NoMemory);
    };
    let known = plan.is_some();
    let legal = judge(alloc, lists.model(), scenario, known)?;
    if legal {
        return Ok(Judged::Legal);
    }
    let conflict = closed(alloc, lists)?;
    Ok(Judged::Refused(conflict))
}

/// The whole scenario of the list, and its plan, which is known.
pub(crate) fn found_with(
    alloc: Global,
    lists: &ListWalk<'_>,
    plan: Plan,
) -> Result<(Scenario, Plan), NoMemory>
    requires whole { IsWhole (answer lists.now) }
    requires plan { HasPlan lists.now plan }
    ensures { IfOk result (λ found. IsFound lists.now found) }
{
    let Some(scenario) = lists.scenario() else {
        return Err(NoMemory);
    };
    let copy = copy_scenario(alloc, scenario)?;
    Ok((copy, plan))
}

/// The whole scenario of the list, which has a plan, and that plan.
pub(crate) fn found_at(alloc: Global, lists: &ListWalk<'_>) -> Result<(Scenario, Plan), NoMemory>
    requires { IsWhole (answer lists.now) }
    ensures { IfOk result (λ found. IsFound lists.now found) }
{
    whole_readings_are_built();
    let Some(scenario) = lists.scenario() else {
        return Err(NoMemory);
    };
    let copy = copy_scenario(alloc, scenario)?;
    match plan_of(alloc, &copy) {
        Ok(plan) => Ok((copy, plan)),
        Err(_) => Err(NoMemory),
    }
}
