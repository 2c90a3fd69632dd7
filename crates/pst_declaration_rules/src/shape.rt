//! How many activities and bodies actions have of their own.
ghost use Rattle.std.specs.Prelude.{◌≡◌, length, map};
ghost use Rattle.std.specs.List.{flat_map};
ghost use Rattle.std.specs.Option.{option_map};
ghost use Rattle.pst_ast.specs.DeclarationView.{view_action, view_action_part, view_unit};
ghost use Rattle.pst_type_rules.specs.Members.{activities_in, bodies_in};
ghost use Rattle.pst_type_rules.specs.Sites.{action_at, action_of};
ghost use Rattle.pst_declaration_rules.specs.Shapes;

use pst_ast::{ActionNode, ActionPart};
use pst_base::Place;
use pst_sites::Sites;

/// How many activities and bodies an action has of its own.
#[derive(Clone, Copy)]
pub struct Shape {
    /// The activities.
    pub activities: usize,
    /// The bodies.
    pub bodies: usize,
}

// How many activities there are.
fn activities_among(parts: &[ActionPart]) -> usize
    ensures { result ≡ length (flat_map activities_in (map view_action_part parts.now)) }
{
    let mut count = 0;
    for part in parts {
        if let ActionPart::Activity(_) = part {
            count += 1;
        }
    }
    count
}

// How many bodies there are.
fn bodies_among(parts: &[ActionPart]) -> usize
    ensures { result ≡ length (flat_map bodies_in (map view_action_part parts.now)) }
{
    let mut count = 0;
    for part in parts {
        if let ActionPart::Body(_) = part {
            count += 1;
        }
    }
    count
}

// How many an action has.
fn shape_of(action: &ActionNode) -> Shape
    ensures { result ≡ Shapes.shape_of (action_of (view_action action.now)) }
{
    Shape {
        activities: activities_among(action.parts.as_slice()),
        bodies: bodies_among(action.parts.as_slice()),
    }
}

/// How many the action has whose name stands at a place.
pub fn shape_at(sites: &Sites, place: Place) -> Option<Shape>
    ensures { result ≡ option_map Shapes.shape_of (action_at (map view_unit sites.now) place) }
{
    match sites.action_at(place) {
        None => None,
        Some(action) => Some(shape_of(action)),
    }
}

/// Whether an action has two activities, two bodies, or one of each, where its base has them or
/// not.
pub fn is_twofold(shape: Option<Shape>, inherited: bool) -> bool
    ensures { result ≡ Shapes.is_twofold shape inherited }
{
    match shape {
        None => false,
        Some(shape) => {
            if shape.activities > 0 {
                shape.activities > 1 || shape.bodies > 0
            } else if shape.bodies > 0 {
                shape.bodies > 1
            } else {
                inherited
            }
        }
    }
}

/// Whether an action has an activity, where its base has one or not.
pub fn is_compound(shape: Option<Shape>, inherited: bool) -> bool
    ensures { result ≡ Shapes.is_compound shape inherited }
{
    match shape {
        None => false,
        Some(shape) => {
            if shape.activities > 0 {
                true
            } else if shape.bodies > 0 {
                false
            } else {
                inherited
            }
        }
    }
}
