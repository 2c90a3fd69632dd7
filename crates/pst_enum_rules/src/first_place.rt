//! The places of the first tokens of expressions.
ghost use Rattle.std.specs.Prelude.{◌≡◌};
ghost use Rattle.pst_ast.specs.ExpressionView.{view_expr, view_path, view_primary, view_unary};
ghost use Rattle.pst_type_rules.specs.Places;

use pst_ast::{ExprNode, PathNode, PrimaryNode, UnaryNode};
use pst_base::Place;

// The first token of a path.
fn place_of_path(path: &PathNode) -> Place
    ensures { result ≡ Places.path_place (view_path path.now) }
{
    match path {
        PathNode::Dotted { first, .. } => first.name.place,
        PathNode::Item { first, .. } => first.place,
        PathNode::LongItem { first, .. } => first.place,
    }
}

// The first token of a part without operators.
fn place_of_primary(primary: &PrimaryNode) -> Place
    ensures { result ≡ Places.primary_place (view_primary primary.now) }
{
    match primary {
        PrimaryNode::Number(number) => number.place,
        PrimaryNode::True(place) => *place,
        PrimaryNode::False(place) => *place,
        PrimaryNode::Path(path) => place_of_path(path),
        PrimaryNode::Group {
            left_parenthesis,
            ..
        } => *left_parenthesis,
    }
}

// The first token of a part without operators between parts.
fn place_of_unary(unary: &UnaryNode) -> Place
    ensures { result ≡ Places.unary_place (view_unary unary.now) }
{
    match unary {
        UnaryNode::Prefix { place, .. } => *place,
        UnaryNode::Primary(primary) => place_of_primary(primary),
    }
}

/// The place of the first token of an expression.
pub fn place_of_expr(expr: &ExprNode) -> Place
    ensures { result ≡ Places.expr_place (view_expr expr.now) }
{
    match expr {
        ExprNode::Unary(unary) => place_of_unary(unary),
        ExprNode::Binary { left, .. } => place_of_expr(left),
        ExprNode::In { left, .. } => place_of_expr(left),
    }
}
