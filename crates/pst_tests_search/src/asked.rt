//! What the search answers.
ghost use Rattle.std.specs.Prelude.{◌≡◌, true};
ghost use Rattle.pst_model.specs.ModelView.{view_model};
ghost use Rattle.pst_built.specs.Laws.{IsConcreteRoot};

use crate::shown::shown;
use pst_base::NoMemory;
use pst_model::Model;
use pst_search::{SearchEnd, search};
use pst_sound::sound;
use std::alloc::Global;

// Whether the root is an action type that isn't abstract.
fn is_concrete(model: &Model, root: u32) -> bool
    ensures { result ≡ true → IsConcreteRoot (view_model model.now) root }
{
    match model.actions.get(root as usize) {
        Some(action) => !action.is_abstract,
        None => false,
    }
}

/// What the search of a model answers, of which the last action type is the root.
pub fn searched(
    alloc: Global,
    model: &Model,
    seed: u64,
    infer: u32,
    budget: u64,
) -> Result<String, NoMemory> {
    let root = u32::try_from(model.actions.len())
        .unwrap_or(0)
        .saturating_sub(1);
    if !sound(model) {
        return Ok(String::from_str(alloc, "unsound")?);
    }
    let concrete = is_concrete(model, root);
    if !concrete {
        return Ok(String::from_str(alloc, "no root")?);
    }
    match search(alloc, model, root, seed, infer, budget) {
        Ok((scenario, _plan)) => Ok(shown(alloc, &scenario)?),
        Err(SearchEnd::NoScenario) => Ok(String::from_str(alloc, "noscenario")?),
        Err(SearchEnd::Budget { level }) => Ok(format!(in alloc; "budget {level}")?),
        Err(SearchEnd::NoMemory) => Err(NoMemory),
    }
}
