//! The plan of a scenario that is read whole.
ghost use Rattle.std.specs.Prelude.{◌≡◌, IfErr, MatchResult};
ghost use Rattle.pst_model.specs.ModelView.{view_model};
ghost use Rattle.pst_scen.specs.Plans.{IsPlanOf};
ghost use Rattle.pst_scen.specs.Refusals.{IsUnrefused};
ghost use Rattle.pst_graph.specs.declared.planning.PlanEnd.TheVariants as end;
ghost use Rattle.pst_graph.specs.Ends.{IsEndOf};
ghost use Rattle.pst_graph.specs.Whole.{IsReadWhole};

use crate::planning::{PlanEnd, plan_of};
use pst_built::whole_readings_are_built;
use pst_model::Model;
use pst_scen::{Plan, Scenario};
use std::alloc::Global;

/// The plan of a scenario of the model that a list of choices reads whole, or the first reason why
/// it has none, with its least action or pair. It is that of `plan_of`: the model only says which
/// scenarios there are.
pub fn plan(alloc: Global, model: &Model, scenario: &Scenario) -> Result<Plan, PlanEnd>
    requires { IsReadWhole (view_model model.now) scenario.now }
    ensures answers { MatchResult result (IsPlanOf scenario.now) (IsEndOf scenario.now) }
    ensures unrefused { IsUnrefused scenario.now → IfErr result (λ e. e ≡ end.NoMemory) }
{
    whole_readings_are_built();
    plan_of(alloc, scenario)
}
