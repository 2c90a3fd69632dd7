//! Whether a scenario has a plan, and whether a whole one is legal.
ghost use Rattle.std.specs.Prelude.{◌≡◌, IfOk, true};
ghost use Rattle.pst_model.specs.ModelView.{view_model};
ghost use Rattle.pst_model.specs.Sound.{IsSound};
ghost use Rattle.pst_order.specs.Built.{IsBuilt};
ghost use Rattle.pst_refusals.specs.Answers.{StandEarlier};
ghost use Rattle.pst_scen.specs.Plan.{Entries};
ghost use Rattle.pst_scen.specs.Plans.{IsPlanOf};
ghost use Rattle.pst_search.specs.Judging.{TellsEnd, TellsHolding, TellsPlan, TellsPlanned, TellsLegal};

use pst_base::NoMemory;
use pst_graph::{PlanEnd, plan_of};
use pst_known::Scene;
use pst_model::Model;
use pst_refusals::some_unmet;
use pst_scen::{Plan, Scenario};
use std::alloc::Global;

// Whether the end of a plan refuses the scenario. It is want of memory otherwise.
fn is_refusal(end: PlanEnd) -> bool
    ensures { TellsEnd end result }
{
    match end {
        PlanEnd::NoMemory => false,
        _ => true,
    }
}

/// The plan of the scenario, if it has one.
pub(crate) fn plan_if_any(alloc: Global, scenario: &Scenario) -> Result<Option<Plan>, NoMemory>
    requires { IsBuilt scenario.now }
    ensures { IfOk result (λ r. TellsPlanned scenario.now r) }
{
    match plan_of(alloc, scenario) {
        Ok(plan) => Ok(Some(plan)),
        Err(end) => {
            let refused = is_refusal(end);
            if refused {
                return Ok(None);
            }
            Err(NoMemory)
        }
    }
}

/// Whether the scenario has a plan.
pub(crate) fn has_plan(alloc: Global, scenario: &Scenario) -> Result<bool, NoMemory>
    requires { IsBuilt scenario.now }
    ensures { IfOk result (λ r. TellsPlan scenario.now r) }
{
    let plan = plan_if_any(alloc, scenario)?;
    match plan {
        Some(_plan) => Ok(true),
        None => Ok(false),
    }
}

// Whether each constraint holds.
fn all_hold(alloc: Global, model: &Model, scenario: &Scenario) -> Result<bool, NoMemory>
    requires sound { IsSound (view_model model.now) }
    requires earlier { StandEarlier scenario.now.nodes }
    ensures { IfOk result (λ r. TellsHolding (view_model model.now) scenario.now r) }
{
    let nodes = scenario.nodes.as_slice();
    let actions = scenario.actions.as_slice();
    let firsts = scenario.firsts.as_slice();
    let scene = Scene {
        model,
        level: scenario.level,
        nodes,
        actions,
        firsts,
    };
    let unmet = some_unmet(alloc, &scene)?;
    Ok(!unmet)
}

/// Whether each constraint of the scenario holds and it has a plan, which may be known.
pub(crate) fn judge(
    alloc: Global,
    model: &Model,
    scenario: &Scenario,
    known: bool,
) -> Result<bool, NoMemory>
    requires sound { IsSound (view_model model.now) }
    requires earlier { StandEarlier scenario.now.nodes }
    requires built { IsBuilt scenario.now }
    requires known { known ≡ true → (p : Entries) × IsPlanOf scenario.now p }
    ensures { IfOk result (λ r. TellsLegal (view_model model.now) scenario.now r) }
{
    let hold = all_hold(alloc, model, scenario)?;
    if !hold {
        return Ok(false);
    }
    if known {
        return Ok(true);
    }
    let planned = has_plan(alloc, scenario)?;
    Ok(planned)
}
