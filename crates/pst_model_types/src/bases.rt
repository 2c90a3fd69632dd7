//! Of the bases of actions those that have constraints, or an activity or a body.
ghost use Rattle.std.specs.Prelude.{◌≡◌, IfOk, map};
ghost use Rattle.std.specs.List.{filter};
ghost use Rattle.pst_ast.specs.DeclarationView.{view_action};
ghost use Rattle.pst_sources.specs.Shown.{sources_of};
ghost use Rattle.pst_type_rules.specs.Sites.{action_of};
ghost use Rattle.pst_model_types.specs.Marks as marks;
ghost use Rattle.pst_model_types.specs.Marks.{AreBasesOf};

use pst_ast::{ActionNode, ActionPart};
use pst_base::{NoMemory, Place};
use pst_contents::content_bases;
use pst_marked_bases::MarkedBases;
use pst_sources::Known;
use std::alloc::Global;

/// What is listed by those bases of an action alone that have any.
#[derive(Drop)]
pub(crate) struct ActionBases<'a> {
    /// The bases that have constraints in their own text.
    pub(crate) constraints: MarkedBases<'a>,
    /// The bases that have an activity or a body in their own text.
    pub(crate) contents: MarkedBases<'a>,
}

// Whether an action has a constraint in its own text.
fn has_constraint(node: &ActionNode) -> bool
    ensures { result ≡ marks.has_constraint (action_of (view_action node.now)) }
{
    for part in node.parts.as_slice() {
        if matches!(part, ActionPart::Constraint(_)) {
            return true;
        }
    }
    false
}

// The places of the names of those actions that have constraints in their own text.
fn places_with(alloc: Global, actions: &[&ActionNode]) -> Result<Vec<Place>, NoMemory>
    ensures { IfOk result (λ places. places.items ≡ map (λ a. a.name.place) (filter marks.has_constraint (map (λ a. action_of (view_action a.now)) actions.now))) }
{
    let mut places = Vec::new(alloc);
    for action in actions {
        if has_constraint(action) {
            places.push(action.name.place)?;
        }
    }
    Ok(places)
}

// Of all actions and their bases those that have constraints in their own text.
fn constraint_bases<'a>(known: &Known<'a>) -> Result<MarkedBases<'a>, NoMemory>
    ensures { IfOk result (λ m. m ≡ marks.constraint_bases (sources_of known.now)) }
{
    let places = places_with(known.alloc(), known.sites().actions())?;
    MarkedBases::new(known.alloc(), known.index(), places)
}

/// What is listed by the bases of the actions of the sources.
pub(crate) fn action_bases<'a>(known: &Known<'a>) -> Result<ActionBases<'a>, NoMemory>
    ensures { IfOk result (AreBasesOf (sources_of known.now)) }
{
    let constraints = constraint_bases(known)?;
    let contents = content_bases(known)?;
    Ok(ActionBases {
        constraints,
        contents,
    })
}
