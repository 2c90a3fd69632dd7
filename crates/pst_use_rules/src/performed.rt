//! What traversals break.
ghost use Rattle.std.specs.Prelude.{◌≡◌, map};
ghost use Rattle.std.specs.Option.{option_map};
ghost use Rattle.pst_ast.specs.DeclarationView.{view_action, view_unit};
ghost use Rattle.pst_type_rules.specs.Sites.{action_of};
ghost use Rattle.pst_use_rules.specs.Found;

use crate::facts::Facts;
use pst_ast::{ActionNode, Environment, Finding, Traversal};
use pst_base::Place;
use pst_index::traversed;
use pst_name_rules::unless;

// Rule 17 at the traversal of an action, where there is one.
fn abstract_finding(place: Place, action: Option<&ActionNode>) -> Option<Finding>
    ensures { result ≡ Found.performed_found place (option_map (λ a. action_of (view_action a.now)) action.entry) }
{
    match action {
        None => None,
        Some(action) => unless(action.abstract_.is_none(), place, 17),
    }
}

/// Rule 17 at a traversal.
pub fn performed_finding(
    facts: &Facts<'_>,
    at: &Environment,
    place: Place,
    traversal: &Traversal,
) -> Option<Finding>
    ensures { result ≡ Found.performs_found (map view_unit facts.now.sites.now) facts.now.index.now facts.now.names.now at.now place traversal.now }
{
    match traversed(facts.index, facts.names, at, traversal) {
        None => None,
        Some(action) => abstract_finding(place, facts.sites.action_at(action.name.place)),
    }
}
