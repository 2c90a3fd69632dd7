//! Which claims lock.
ghost use Rattle.std.specs.Prelude.{◌≡◌, ◌++◌, IfOk, OnOk, map};
ghost use Rattle.std.specs.List.{flat_map, list_any};
ghost use Rattle.pst_ast.specs.DeclarationView.{view_action, view_action_part};
ghost use Rattle.pst_ast.specs.SharedView.{view_names};
ghost use Rattle.pst_elab_rules.specs.Types as tree;
ghost use Rattle.pst_ast.specs.Declarations;
ghost use Rattle.pst_ast.specs.Sorts.{same_place};
ghost use Rattle.pst_sources.specs.Shown.{sources_of};
ghost use Rattle.pst_type_rules.specs.Sites.{action_of};
ghost use Rattle.pst_model_members.specs.Listed.{locked_in_action, locked_names, place_of_name};

use pst_ast::{ActionNode, ActionPart, ClaimWord, NamesNode, NextName};
use pst_base::{NoMemory, Place};
use pst_places::PlaceList;
use pst_sources::Known;

// Adds the places of the names behind the first of a list.
fn add_rest(found: &mut Vec<Place>, rest: &[NextName]) -> Result<(), NoMemory>
    ensures { OnOk result (found.new.items ≡ found.old.items ++ map (λ n. n.name.place) rest.now) }
{
    for next in rest {
        found.push(next.name.place)?;
    }
    Ok(())
}

// Adds the places of names.
fn add_names(found: &mut Vec<Place>, names: &NamesNode) -> Result<(), NoMemory>
    ensures { OnOk result (found.new.items ≡ found.old.items ++ map place_of_name (Declarations.names_of (view_names names.now))) }
{
    found.push(names.first.place)?;
    add_rest(found, names.rest.as_slice())
}

// Adds the places of the names that a part of an action claims by `lock`.
fn add_part(found: &mut Vec<Place>, part: &ActionPart) -> Result<(), NoMemory>
    ensures { OnOk result (found.new.items ≡ found.old.items ++ map place_of_name (tree.locked_in (view_action_part part.now))) }
{
    match part {
        ActionPart::Claim(claim) => match claim.word {
            ClaimWord::Lock => add_names(found, &claim.names),
            ClaimWord::Share => Ok(()),
        },
        _ => Ok(()),
    }
}

// Adds the places of the names that the parts of an action claim by `lock`.
#[tactic(auto, using(crate::proofs::Locking::places_append))]
fn add_parts(found: &mut Vec<Place>, parts: &[ActionPart]) -> Result<(), NoMemory>
    ensures { OnOk result (found.new.items ≡ found.old.items ++ map place_of_name (flat_map tree.locked_in (map view_action_part parts.now))) }
{
    for part in parts {
        add_part(found, part)?;
    }
    Ok(())
}

// Adds the places of the names that an action claims by `lock`.
fn add_action(found: &mut Vec<Place>, action: &ActionNode) -> Result<(), NoMemory>
    ensures { OnOk result (found.new.items ≡ found.old.items ++ locked_in_action (action_of (view_action action.now))) }
{
    add_parts(found, action.parts.as_slice())
}

// Adds the places of the names that actions claim by `lock`.
fn add_actions(found: &mut Vec<Place>, actions: &[&ActionNode]) -> Result<(), NoMemory>
    ensures { OnOk result (found.new.items ≡ found.old.items ++ flat_map locked_in_action (map (λ a. action_of (view_action a.now)) actions.now)) }
{
    for action in actions {
        add_action(found, action)?;
    }
    Ok(())
}

/// The places of the names that are claimed by `lock`.
pub fn locked_places(known: &Known<'_>) -> Result<PlaceList, NoMemory>
    ensures { IfOk result (λ l. l ≡ locked_names (sources_of known.now)) }
{
    let mut found = Vec::new(known.alloc());
    add_actions(&mut found, known.sites().actions())?;
    let list = PlaceList::new(known.alloc(), found)?;
    Ok(list)
}

/// Whether the name at a place is claimed by `lock`, given the places of those that are.
#[tactic(auto, using(crate::proofs::Locking::is_among))]
pub fn is_locked(locked: &PlaceList, place: Place) -> bool
    ensures { result ≡ list_any (λ p. same_place p place) locked.now }
{
    locked.number(place).is_some()
}
