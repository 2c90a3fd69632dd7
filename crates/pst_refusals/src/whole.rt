//! Whether some constraint of a scenario fails.
ghost use Rattle.std.specs.Prelude.{◌≡◌, IfOk};
ghost use Rattle.std.specs.List.{list_any};
ghost use Rattle.pst_model.specs.ModelView.{view_model};
ghost use Rattle.pst_model.specs.Sound.{IsSound};
ghost use Rattle.pst_known.specs.Known.{seen};
ghost use Rattle.pst_slots.specs.Listed.{constraints_of};
ghost use Rattle.pst_refusals.specs.Failing.{fails};
ghost use Rattle.pst_refusals.specs.Answers.{TellsRefusals, TellsUnmet};

use crate::acts::{of_acts, of_firsts};
use crate::listed::of_nodes;
use pst_base::NoMemory;
use pst_known::Scene;
use std::alloc::Global;

// Whether some constraint fails: by what is known of its slots, or by their values.
fn some_fails(alloc: Global, scene: &Scene<'_>, by_values: bool) -> Result<bool, NoMemory>
    requires { IsSound (view_model scene.now.model.now) }
    ensures { IfOk result (λ r. r ≡ list_any (fails by_values) (constraints_of (view_model scene.now.model.now) (seen scene.now))) }
{
    if of_nodes(alloc, scene, by_values)? {
        return Ok(true);
    }
    if of_acts(alloc, scene, by_values)? {
        return Ok(true);
    }
    of_firsts(alloc, scene, by_values)
}

/// Whether some constraint of the scenario is refused at what is known of it.
pub fn some_refused(alloc: Global, scene: &Scene<'_>) -> Result<bool, NoMemory>
    requires { IsSound (view_model scene.now.model.now) }
    ensures { IfOk result (λ r. TellsRefusals (view_model scene.now.model.now) (seen scene.now) r) }
{
    some_fails(alloc, scene, false)
}

/// Whether some constraint of the scenario doesn't hold at the values that are read.
pub fn some_unmet(alloc: Global, scene: &Scene<'_>) -> Result<bool, NoMemory>
    requires { IsSound (view_model scene.now.model.now) }
    ensures { IfOk result (λ r. TellsUnmet (view_model scene.now.model.now) (seen scene.now) r) }
{
    some_fails(alloc, scene, true)
}
