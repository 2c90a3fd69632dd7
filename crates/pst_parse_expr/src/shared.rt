//! Parts that several rules have. A parser stands at a place, and `depth` derivations that count are
//! open at the tokens of its part; it answers the part and the place behind it.
ghost use Rattle.std.specs.Prelude.{◌≡◌, ◌≤◌, ◌-◌, length, drop};
ghost use Rattle.pst_ast.specs.ExpressionView.{view_expr};
ghost use Rattle.pst_ast.specs.SharedView.{view_next_expr};
ghost use Rattle.pst_reading.specs.Parser.{next};
ghost use Rattle.pst_reading.specs.Reads.{Reads};
ghost use Rattle.pst_parse_expr.specs.Constraints.{begins_expr};
ghost use Rattle.pst_parse_expr.specs.Constraints;
ghost use Rattle.pst_parse_expr.specs.ConstraintFamilies.{outermost_family, condition_family, next_expr_family, next_exprs_family, dot_name_family, dot_names_family, view_condition, view_next_exprs, view_dot_names};

use pst_ast::{DotName, ExprNode, NextExpr, SyntaxFault};
use pst_base::Place;
use pst_parse_operator::expression::{LEVELS, level};
use pst_parse_operator::operators::prefix_at;
use pst_reading::{expect, expect_name, is, is_name, is_number, is_over, push};
use pst_token::{Kind, Token};
use std::alloc::Global;

/// An expression in brackets.
#[derive(Drop)]
pub struct Condition {
    /// `(`
    pub left_parenthesis: Place,
    /// The expression.
    pub expr: ExprNode,
    /// `)`
    pub right_parenthesis: Place,
}

// Whether an expression begins at a place.
#[tactic(auto, unfolding(crate::specs::Constraints::begins_expr))]
fn begins_expr(tokens: &[Token], at: usize) -> bool
    ensures { result ≡ Constraints.begins_expr (next (drop at tokens.now)) }
{
    prefix_at(tokens, at).is_some()
        || is_number(tokens, at)
        || is(tokens, at, Kind::LeftParenthesis)
        || is(tokens, at, Kind::True)
        || is(tokens, at, Kind::False)
        || is_name(tokens, at)
}

/// An expression that stands in no other one.
pub fn outermost(
    alloc: Global,
    tokens: &[Token],
    at: usize,
    depth: u32,
) -> Result<(ExprNode, usize), SyntaxFault>
    requires inside { at ≤ length tokens.now }
    requires nesting { depth ≤ 65 }
    ensures { Reads view_expr (outermost_family depth) tokens.now at at 1 result }
{
    if !is_over(depth, 0) {
        let (expr, after, _operators) = level(alloc, tokens, at, depth, 0, LEVELS)?;
        return Ok((expr, after));
    }
    if begins_expr(tokens, at) {
        return Err(SyntaxFault::Deep { at });
    }
    Err(SyntaxFault::At { at })
}

/// An expression in brackets.
pub fn read_condition(
    alloc: Global,
    tokens: &[Token],
    at: usize,
    depth: u32,
) -> Result<(Condition, usize), SyntaxFault>
    requires inside { at ≤ length tokens.now }
    requires nesting { depth ≤ 64 }
    ensures { Reads view_condition (condition_family depth) tokens.now at at 1 result }
{
    let left_parenthesis = expect(tokens, at, Kind::LeftParenthesis, depth, 0)?;
    let (expr, after) = outermost(alloc, tokens, at + 1, depth)?;
    let right_parenthesis = expect(tokens, after, Kind::RightParenthesis, depth, 0)?;
    let condition = Condition {
        left_parenthesis,
        expr,
        right_parenthesis,
    };
    Ok((condition, after + 1))
}

// An expression behind a comma.
fn next_expr(
    alloc: Global,
    tokens: &[Token],
    at: usize,
    depth: u32,
) -> Result<(NextExpr, usize), SyntaxFault>
    requires inside { at ≤ length tokens.now }
    requires nesting { depth ≤ 64 }
    ensures { Reads view_next_expr (next_expr_family depth) tokens.now at at 1 result }
{
    let comma = expect(tokens, at, Kind::Comma, depth, 0)?;
    let (expr, after) = outermost(alloc, tokens, at + 1, depth)?;
    Ok((NextExpr { comma, expr }, after))
}

/// Expressions behind commas.
pub fn next_exprs(
    alloc: Global,
    tokens: &[Token],
    at: usize,
    depth: u32,
) -> Result<(Vec<NextExpr>, usize), SyntaxFault>
    requires inside { at ≤ length tokens.now }
    requires nesting { depth ≤ 64 }
    requires behind { 1 ≤ at }
    ensures { Reads view_next_exprs (next_exprs_family depth) tokens.now (at - 1) at 0 result }
{
    let mut exprs = Vec::new(alloc);
    let mut place = at;
    'exprs: while is(tokens, place, Kind::Comma) {
        let (expr, after) = next_expr(alloc, tokens, place, depth)?;
        push(&mut exprs, expr)?;
        place = after;
    }
    Ok((exprs, place))
}

// A name behind a dot.
fn dot_name(tokens: &[Token], at: usize, depth: u32) -> Result<(DotName, usize), SyntaxFault>
    requires inside { at ≤ length tokens.now }
    ensures { Reads (λ name. name) (dot_name_family depth) tokens.now at at 1 result }
{
    let dot = expect(tokens, at, Kind::Dot, depth, 0)?;
    let name = expect_name(tokens, at + 1, depth, 0)?;
    Ok((DotName { dot, name }, at + 2))
}

/// Names behind dots.
pub fn dot_names(
    alloc: Global,
    tokens: &[Token],
    at: usize,
    depth: u32,
) -> Result<(Vec<DotName>, usize), SyntaxFault>
    requires inside { at ≤ length tokens.now }
    requires behind { 1 ≤ at }
    ensures { Reads view_dot_names (dot_names_family depth) tokens.now (at - 1) at 0 result }
{
    let mut names = Vec::new(alloc);
    let mut place = at;
    'names: while is(tokens, place, Kind::Dot) {
        let (name, after) = dot_name(tokens, place, depth)?;
        push(&mut names, name)?;
        place = after;
    }
    Ok((names, place))
}
