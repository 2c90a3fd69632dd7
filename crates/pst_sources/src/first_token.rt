//! The first tokens of expressions.
ghost use Rattle.std.specs.Prelude.{◌≡◌};
ghost use Rattle.pst_ast.specs.ExpressionView.{view_expr, view_path, view_primary, view_unary};
ghost use Rattle.pst_type_rules.specs.Places;

use pst_ast::{ExprNode, PathNode, PrimaryNode, UnaryNode};
use pst_base::Place;

// The place of the first token of a path.
fn path_place(path: &PathNode) -> Place
    ensures { result ≡ Places.path_place (view_path path.now) }
{
    match path {
        PathNode::Dotted { first, .. } => first.name.place,
        PathNode::Item { first, .. } => first.place,
        PathNode::LongItem { first, .. } => first.place,
    }
}

// The place of the first token of a part between operators.
fn primary_place(primary: &PrimaryNode) -> Place
    ensures { result ≡ Places.primary_place (view_primary primary.now) }
{
    match primary {
        PrimaryNode::Number(number) => number.place,
        PrimaryNode::True(place) => *place,
        PrimaryNode::False(place) => *place,
        PrimaryNode::Path(path) => path_place(path),
        PrimaryNode::Group {
            left_parenthesis,
            ..
        } => *left_parenthesis,
    }
}

// The place of the first token of an expression without operators between parts.
fn unary_place(unary: &UnaryNode) -> Place
    ensures { result ≡ Places.unary_place (view_unary unary.now) }
{
    match unary {
        UnaryNode::Prefix { place, .. } => *place,
        UnaryNode::Primary(primary) => primary_place(primary),
    }
}

/// The place of the first token of an expression.
pub fn expr_place(expr: &ExprNode) -> Place
    ensures { result ≡ Places.expr_place (view_expr expr.now) }
{
    match expr {
        ExprNode::Unary(unary) => unary_place(unary),
        ExprNode::Binary { left, .. } => expr_place(left),
        ExprNode::In { left, .. } => expr_place(left),
    }
}
