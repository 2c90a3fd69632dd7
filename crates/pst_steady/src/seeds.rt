//! Where each declaration has its activity from.
ghost use Rattle.std.specs.Prelude.{◌≡◌, ◌+◌, ◌<◌, ℕ, IfOk, OnOk, Some, length, map, slice_get};
ghost use Rattle.pst_ast.specs.DeclarationView.{view_action, view_unit};
ghost use Rattle.pst_type_rules.specs.Sites.{DeclaredAction, action_at, action_of};
ghost use Rattle.pst_steady.specs.Seeded.{AreSeeds, IsSeed};

use crate::reach::Seed;
use pst_ast::{ActionNode, Declaration};
use pst_base::{NoMemory, Place};
use pst_sites::Sites;
use pst_traversals::{has_body, own_activity};
use std::alloc::Global;

// Where the action whose name stands at a place has its activity from; one with its own is added.
fn add_seed<'a>(
    sites: &Sites<'a>,
    actions: &mut Vec<&'a ActionNode>,
    place: Place,
) -> Result<Seed, NoMemory>
    ensures seed { IfOk result (λ s. IsSeed (action_at (map view_unit sites.now) place) (map (λ a. action_of (view_action a.now)) actions.new.items) s) }
    ensures kept { OnOk result ((k : ℕ) (a : DeclaredAction) → slice_get (map (λ a. action_of (view_action a.now)) actions.old.items) k ≡ Some a → slice_get (map (λ a. action_of (view_action a.now)) actions.new.items) k ≡ Some a) }
{
    let Some(action) = sites.action_at(place) else {
        return Ok(Seed::Stop);
    };
    if own_activity(action).is_some() {
        let number = actions.len();
        actions.push(action)?;
        return Ok(Seed::Own(number));
    }
    if has_body(action) {
        Ok(Seed::Stop)
    } else {
        Ok(Seed::Inherit)
    }
}

/// Where each declaration has its activity from; the actions with activities of their own are added,
/// in that order.
pub fn seeds_of<'a>(
    alloc: Global,
    sites: &Sites<'a>,
    declarations: &[Declaration],
    actions: &mut Vec<&'a ActionNode>,
) -> Result<Vec<Seed>, NoMemory>
    ensures { IfOk result (λ seeds. AreSeeds (map view_unit sites.now) declarations.now (length declarations.now) (map (λ a. action_of (view_action a.now)) actions.new.items) seeds.items) }
{
    let mut seeds = Vec::new(alloc);
    for at in 0..declarations.len() {
        let seed = add_seed(sites, actions, declarations[at].name.place)?;
        seeds.push(seed)?;
    }
    Ok(seeds)
}
