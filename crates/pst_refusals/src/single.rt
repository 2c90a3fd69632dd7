//! Constraints of one action, one node or one pool.
ghost use Rattle.std.specs.Prelude.{◌≡◌, IfOk, ◌&&◌, false};
ghost use Rattle.std.specs.List.{list_any};
ghost use Rattle.pst_model.specs.ModelView.{view_model};
ghost use Rattle.pst_model.specs.Sound.{IsSound};
ghost use Rattle.pst_legal.specs.Types.{is_state_pool};
ghost use Rattle.pst_known.specs.Known.{seen};
ghost use Rattle.pst_slots.specs.Listed.{of_act, of_fill, of_first_object};
ghost use Rattle.pst_refusals.specs.Failing.{fails};

use crate::acts::{is_state_pool, of_act, of_first};
use crate::listed::of_fill;
use pst_base::NoMemory;
use pst_known::Scene;
use pst_scen::{Act, Fill};
use std::alloc::Global;

/// Whether a constraint of an action, of what it writes or of what it claims, is refused at what is
/// known of the scenario.
pub fn is_act_refused(
    alloc: Global,
    scene: &Scene<'_>,
    number: usize,
    act: &Act,
) -> Result<bool, NoMemory>
    requires { IsSound (view_model scene.now.model.now) }
    ensures { IfOk result (λ r. r ≡ list_any (fails false) (of_act (view_model scene.now.model.now) (seen scene.now) (number, act.now))) }
{
    of_act(alloc, scene, number, act, false)
}

/// Whether a constraint of the compound action of a node of this fill is refused at what is known of
/// the scenario.
pub fn is_compound_refused(
    alloc: Global,
    scene: &Scene<'_>,
    n: usize,
    fill: &Fill,
) -> Result<bool, NoMemory>
    requires { IsSound (view_model scene.now.model.now) }
    ensures { IfOk result (λ r. r ≡ list_any (fails false) (of_fill (view_model scene.now.model.now) (seen scene.now) n fill.now)) }
{
    of_fill(alloc, scene, n, fill, false)
}

/// Whether a pool is one of states, and a constraint of its first object is refused at what is known
/// of the scenario.
pub fn is_first_refused(alloc: Global, scene: &Scene<'_>, pool: u32) -> Result<bool, NoMemory>
    requires { IsSound (view_model scene.now.model.now) }
    ensures { IfOk result (λ r. r ≡ (is_state_pool (view_model scene.now.model.now) pool && list_any (fails false) (of_first_object (view_model scene.now.model.now) (seen scene.now) pool))) }
{
    if !is_state_pool(scene.model, pool) {
        return Ok(false);
    }
    of_first(alloc, scene, pool, false)
}
