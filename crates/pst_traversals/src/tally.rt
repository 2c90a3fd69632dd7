//! How often the activity of each action traverses each handle.
ghost use Rattle.std.specs.Prelude.{◌≡◌, ◌+◌, Some, slice_get, IfOk, OnOk, map, if◌then◌else◌};
ghost use Rattle.std.specs.List.{fold};
ghost use Rattle.std.specs.HashMap.{get};
ghost use Rattle.pst_ast.specs.DeclarationView.{view_action};
ghost use Rattle.pst_type_rules.specs.Sites.{DeclaredAction, action_of};
ghost use Rattle.pst_traversals.specs.Listed.{withins};
ghost use Rattle.pst_traversals.specs.Tallied.{name_in, noted, own_traversals, same_key, tally_before, tally_of, withins_at};

use crate::listing::{Traversed, list_traversals};
use crate::own::own_activity;
use pst_ast::ActionNode;
use pst_base::NoMemory;
use std::alloc::Global;
use std::collections::HashMap;

/// The number of an action, and that of the name of a handle.
#[derive(Clone, Copy, PartialEq, Eq, Hash)]
pub struct TallyKey {
    /// The number of the action.
    pub action: usize,
    /// The number of the handle's name.
    pub handle: u32,
}

// Counts a traversal.
fn note(tallies: &mut HashMap<TallyKey, bool>, key: TallyKey, within: bool) -> Result<(), NoMemory>
    ensures { OnOk result ((q : TallyKey) → get same_key tallies.new q ≡ (if same_key q key then noted (get same_key tallies.old q) within else get same_key tallies.old q)) }
{
    let steady = match tallies.get(&key) {
        None => !within,
        Some(_) => false,
    };
    tallies.insert(key, steady)?;
    Ok(())
}

// Counts the traversals of an action.
#[tactic(auto, using(crate::proofs::Counted::one_noted))]
fn note_all(
    tallies: &mut HashMap<TallyKey, bool>,
    action: usize,
    traversals: &[Traversed],
) -> Result<(), NoMemory>
    ensures { OnOk result ((q : TallyKey) → get same_key tallies.new q ≡ fold noted (get same_key tallies.old q) (withins_at action q traversals.now)) }
{
    for traversed in traversals {
        let key = TallyKey {
            action,
            handle: traversed.handle.0,
        };
        note(tallies, key, traversed.within)?;
    }
    Ok(())
}

// The traversals in the own activity of an action.
#[tactic(auto, using(crate::proofs::Within::in_statements))]
fn list_own(alloc: Global, action: &ActionNode) -> Result<Vec<Traversed>, NoMemory>
    ensures { IfOk result (λ all. (q : TallyKey) → withins (name_in q) all.items ≡ own_traversals (name_in q) (action_of (view_action action.now))) }
{
    match own_activity(action) {
        None => Ok(Vec::new(alloc)),
        Some(statements) => list_traversals(alloc, statements),
    }
}

/// For each action, by its number, and each handle that its own activity traverses, whether that is
/// so exactly once, and not within a `select`, `repeat`, `if` or `match`.
pub fn tallies(alloc: Global, actions: &[&ActionNode]) -> Result<HashMap<TallyKey, bool>, NoMemory>
    ensures { IfOk result (λ m. (q : TallyKey) → get same_key m q ≡ tally_of (map (λ a. action_of (view_action a.now)) actions.now) q) }
{
    let mut tallies = HashMap::new(alloc);
    for number in 0..actions.len() {
        let traversals = list_own(alloc, actions[number])?;
        note_all(&mut tallies, number, traversals.as_slice())?;
    }
    Ok(tallies)
}
