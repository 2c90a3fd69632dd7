//! The plan of a scenario, or why it has none.
ghost use Rattle.std.specs.Prelude.{◌≡◌, ◌<◌, ℕ, length, get_or, IfOk, IfErr, MatchOption, MatchResult};
ghost use Rattle.pst_scen.specs.Plans.{AreEntriesOf, IsGroupNumber, IsPlanOf};
ghost use Rattle.pst_scen.specs.Refusals.{IsUnrefused};
ghost use Rattle.pst_order.specs.Built.{IsBuilt};
ghost use Rattle.pst_graph.specs.declared.planning.PlanEnd.TheVariants as end;
ghost use Rattle.pst_graph.specs.Ends.{IsRefusal, IsEndOf};
ghost use Rattle.pst_graph.specs.Ordered.{IsOrder};

use crate::groups::groups_of;
use crate::must::must_rows;
use crate::refusals::{
    find_cycle, find_group_clash, find_parallel_clash, find_parallel_order, first_contender,
    first_ordered,
};
use crate::rows::conflict_rows;
use pst_base::NoMemory;
use pst_nodes::Tables;
use pst_order::unrefused_is_planned;
use pst_scen::{Plan, Rows, Scenario};
use pst_square::Closing;
use std::alloc::Global;

/// Why a scenario has no plan. The first reason in this order is given, with its least action or
/// pair: the least first action, and with it the least second one.
#[derive(Clone, Copy, Debug, PartialEq, Eq)]
pub enum PlanEnd {
    /// The action must end before it starts.
    Cycle { a: u32 },
    /// Two actions that streams join, so that they start together, can't run at one time. Where `a`
    /// is `b`, two claims of it on one resource instance aren't both shares.
    GroupClash { a: u32, b: u32 },
    /// Two actions in different branches of one parallel block are ordered.
    ParallelOrder { a: u32, b: u32 },
    /// Two actions in different branches of one parallel block claim one resource instance, and at
    /// least one of them locks it.
    ParallelClash { a: u32, b: u32 },
    /// Memory ran out, which says nothing of the scenario.
    NoMemory,
}

impl From<NoMemory> for PlanEnd {
    ghost use Rattle.std.specs.Prelude.{◌≡◌};

    ghost from_gives = { λ _ e. e ≡ end.NoMemory };

    fn from(_error: NoMemory) -> PlanEnd {
        PlanEnd::NoMemory
    }
}

/// The groups, the order and the conflicts of the scenario, whether or not it has a plan.
fn entries_of(
    alloc: Global,
    scenario: &Scenario,
    groups: Vec<u32>,
    must: Rows,
    count: u32,
) -> Result<Plan, NoMemory>
    requires many { length groups.items ≡ length scenario.now.actions }
    requires numbers { (a : ℕ) → a < length scenario.now.actions → IsGroupNumber scenario.now a (get_or groups.items a 0) }
    requires order { IsOrder scenario.now must }
    requires count { count ≡ length scenario.now.actions }
    ensures { IfOk result (AreEntriesOf scenario.now) }
{
    let conflict = conflict_rows(alloc, scenario, count)?;
    Plan::of_rows_in(alloc, groups, must, conflict)
}

/// The first reason why the scenario has no plan.
fn refusal(alloc: Global, scenario: &Scenario, plan: &Plan) -> Result<Option<PlanEnd>, NoMemory>
    requires built { IsBuilt scenario.now }
    requires entries { AreEntriesOf scenario.now plan.now }
    ensures { IfOk result (λ end. MatchOption end (IsUnrefused scenario.now) (IsRefusal scenario.now)) }
{
    if let Some(a) = find_cycle(scenario, plan) {
        return Ok(Some(PlanEnd::Cycle { a }));
    }
    if let Some((a, b)) = find_group_clash(scenario, plan) {
        return Ok(Some(PlanEnd::GroupClash { a, b }));
    }
    let tables = Tables::new(alloc, scenario.nodes.as_slice())?;
    let first = first_ordered(scenario, &tables, plan);
    if let Some((a, b)) = find_parallel_order(scenario, plan, first) {
        return Ok(Some(PlanEnd::ParallelOrder { a, b }));
    }
    let first = first_contender(scenario, &tables, plan);
    if let Some((a, b)) = find_parallel_clash(scenario, plan, first) {
        return Ok(Some(PlanEnd::ParallelClash { a, b }));
    }
    Ok(None)
}

/// The plan of the scenario, or the first reason why it has none, with its least action or pair.
///
/// Sequences, buffers and states order actions, and locks and writers of states conflict, as the
/// standard says. That stream partners start together, and what join forms release, are this
/// project's own.
pub fn plan_of(alloc: Global, scenario: &Scenario) -> Result<Plan, PlanEnd>
    requires { IsBuilt scenario.now }
    ensures answers { MatchResult result (IsPlanOf scenario.now) (IsEndOf scenario.now) }
    ensures unrefused { IsUnrefused scenario.now → IfErr result (λ e. e ≡ end.NoMemory) }
{
    unrefused_is_planned();
    let count = scenario.actions.as_slice().len() as u32;
    let groups = groups_of(alloc, scenario, count)?;
    let must = match must_rows(alloc, scenario, &groups, count)? {
        Closing::Closed { rows } => rows,
        Closing::Circle { least } => return Err(PlanEnd::Cycle { a: least }),
    };
    let plan = entries_of(alloc, scenario, groups, must, count)?;
    let found = refusal(alloc, scenario, &plan)?;
    if let Some(end) = found {
        return Err(end);
    }
    Ok(plan)
}
