//! The first tokens of expressions.
ghost use Rattle.std.specs.Prelude.{◌≡◌};
ghost use Rattle.pst_ast.specs.ExpressionView.{view_expr, view_path, view_primary, view_unary};
ghost use Rattle.pst_type_rules.specs.Places as tree;

use pst_ast::{ExprNode, PathNode, PrimaryNode, UnaryNode};
use pst_base::Place;

// The first token of a path.
fn path_place(path: &PathNode) -> Place
    ensures { result ≡ tree.path_place (view_path path.now) }
{
    match path {
        PathNode::Dotted { first, .. } => first.name.place,
        PathNode::Item { first, .. } => first.place,
        PathNode::LongItem { first, .. } => first.place,
    }
}

// The first token of a part without an operator.
fn primary_place(primary: &PrimaryNode) -> Place
    ensures { result ≡ tree.primary_place (view_primary primary.now) }
{
    match primary {
        PrimaryNode::Number(number) => number.place,
        PrimaryNode::True(place) => *place,
        PrimaryNode::False(place) => *place,
        PrimaryNode::Path(path) => path_place(path),
        PrimaryNode::Group {
            left_parenthesis,
            ..
        } => *left_parenthesis,
    }
}

// The first token of a part.
fn unary_place(unary: &UnaryNode) -> Place
    ensures { result ≡ tree.unary_place (view_unary unary.now) }
{
    match unary {
        UnaryNode::Prefix { place, .. } => *place,
        UnaryNode::Primary(primary) => primary_place(primary),
    }
}

/// The first token of an expression.
pub fn expr_place(expr: &ExprNode) -> Place
    ensures { result ≡ tree.expr_place (view_expr expr.now) }
{
    match expr {
        ExprNode::Unary(unary) => unary_place(unary),
        ExprNode::Binary { left, .. } => expr_place(left),
        ExprNode::In { left, .. } => expr_place(left),
    }
}
