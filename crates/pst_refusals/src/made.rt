//! Inline constraints at the traversal that one node stands for.
ghost use Rattle.std.specs.Prelude.{◌≡◌, IfOk, false};
ghost use Rattle.std.specs.List.{list_any};
ghost use Rattle.pst_model.specs.ModelView.{view_model, view_step};
ghost use Rattle.pst_model.specs.Sound.{IsSound};
ghost use Rattle.pst_known.specs.Known.{seen};
ghost use Rattle.pst_slots.specs.Listed.{of_stated};
ghost use Rattle.pst_slots.specs.Stated.{statement_of as statement_in};
ghost use Rattle.pst_refusals.specs.Answers.{StandEarlier};
ghost use Rattle.pst_refusals.specs.Failing.{fails};
ghost use Rattle.pst_refusals.specs.Made.{of_made, of_made_step};

use crate::fails::some_fails;
use crate::listed::of_step;
use crate::site::MadeSite;
use crate::statement::statement_behind;
use pst_base::NoMemory;
use pst_known::Scene;
use pst_model::Step;
use pst_scen::Act;
use std::alloc::Global;

/// Whether an inline constraint at the traversal that a node stands for is refused at what is known of
/// the scenario, where each node's parent stands before it.
pub fn is_inline_refused(alloc: Global, scene: &Scene<'_>, n: usize) -> Result<bool, NoMemory>
    requires { IsSound (view_model scene.now.model.now) }
    ensures { IfOk result (λ r. StandEarlier scene.now.nodes.now → r ≡ list_any (fails false) (of_stated (view_model scene.now.model.now) (seen scene.now) n (statement_in (view_model scene.now.model.now) scene.now.nodes.now n))) }
{
    match statement_behind(alloc, scene.model, scene.nodes, n)? {
        None => Ok(false),
        Some(found) => of_step(
            alloc,
            scene,
            n,
            found.top,
            found.indices.as_slice(),
            found.step,
            false,
        ),
    }
}

// Of a statement that makes an action.
fn of_made_step(
    alloc: Global,
    scene: &Scene<'_>,
    act: &Act,
    top: usize,
    indices: &[u32],
    step: &Step,
) -> Result<bool, NoMemory>
    requires { IsSound (view_model scene.now.model.now) }
    ensures { IfOk result (λ r. r ≡ list_any (fails false) (of_made_step (view_model scene.now.model.now) (seen scene.now) act.now top indices.now (view_step step.now))) }
{
    match step {
        Step::Traverse { inline, .. } => {
            let site = MadeSite {
                scene,
                act,
                top,
                indices,
            };
            some_fails(alloc, &site, inline.as_slice(), false)
        }
        _ => Ok(false),
    }
}

/// Whether an inline constraint at the traversal that a node stands for is refused of an action that
/// needn't be one of the scenario's, where each node's parent stands before it.
pub fn is_made_refused(
    alloc: Global,
    scene: &Scene<'_>,
    n: usize,
    act: &Act,
) -> Result<bool, NoMemory>
    requires { IsSound (view_model scene.now.model.now) }
    ensures { IfOk result (λ r. StandEarlier scene.now.nodes.now → r ≡ list_any (fails false) (of_made (view_model scene.now.model.now) (seen scene.now) act.now (statement_in (view_model scene.now.model.now) scene.now.nodes.now n))) }
{
    match statement_behind(alloc, scene.model, scene.nodes, n)? {
        None => Ok(false),
        Some(found) => of_made_step(
            alloc,
            scene,
            act,
            found.top,
            found.indices.as_slice(),
            found.step,
        ),
    }
}
