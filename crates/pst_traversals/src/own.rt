//! The own activity of an action, and its body.
ghost use Rattle.std.specs.Prelude.{◌≡◌, map};
ghost use Rattle.std.specs.Option.{option_map};
ghost use Rattle.pst_ast.specs.ActivityView.{view_statement};
ghost use Rattle.pst_ast.specs.DeclarationView.{view_action};
ghost use Rattle.pst_type_rules.specs.Sites.{action_of};
ghost use Rattle.pst_traversals.specs.Own;

use pst_ast::{ActionNode, ActionPart, StatementNode};

/// The statements of the first activity in an action's own text.
pub fn own_activity(action: &ActionNode) -> Option<&[StatementNode]>
    ensures { option_map (λ s. map view_statement s.now) result ≡ Own.own_activity (action_of (view_action action.now)) }
{
    for part in action.parts.as_slice() {
        if let ActionPart::Activity(activity) = part {
            return Some(activity.statements.as_slice());
        }
    }
    None
}

/// Whether an action has a body in its own text.
pub fn has_body(action: &ActionNode) -> bool
    ensures { result ≡ Own.has_body (action_of (view_action action.now)) }
{
    for part in action.parts.as_slice() {
        if let ActionPart::Body(_) = part {
            return true;
        }
    }
    false
}
