//! Constraints. A parser stands at a place, and `depth` derivations that count are open at the
//! tokens of its part; it answers the part and the place behind it. Behind a part that ends with an
//! `if` without `else` no `else` stands.
ghost use Rattle.std.specs.Prelude.{◌≡◌, ◌≤◌, ◌-◌, length};
ghost use Rattle.pst_ast.specs.ConstraintView.{view_constraint, view_constraint_item};
ghost use Rattle.pst_ast.specs.ConstraintProper.{constraint_ends_open, item_ends_open};
ghost use Rattle.pst_reading.specs.Reads.{Reads, ReadsOpen};
ghost use Rattle.pst_parse_expr.specs.ConstraintFamilies.{subscript_family, if_family, unique_family, foreach_family, expr_item_family, item_family, items_family, block_family, set_family, view_subscript, view_items};

use crate::shared::{Condition, dot_names, next_exprs, outermost, read_condition};
use pst_ast::{ConstraintItem, ConstraintNode, Name, SyntaxFault};
use pst_base::Place;
use pst_reading::{boxed, expect, expect_name, is, push};
use pst_token::{Kind, Token};
use std::alloc::Global;

// The index of an array behind its name, and the bracket that closes what stands round it.
#[derive(Clone, Copy, Debug, PartialEq, Eq)]
pub struct Subscript {
    // `[`
    left_bracket: Place,
    // The index's name.
    name: Name,
    // `]`
    right_bracket: Place,
    // `)`
    right_parenthesis: Place,
}

/// Constraints in braces, or one alone.
#[cycle(constraint)]
pub fn set(
    alloc: Global,
    tokens: &[Token],
    at: usize,
    depth: u32,
) -> Result<(ConstraintNode, usize), SyntaxFault>
    requires inside { at ≤ length tokens.now }
    requires nesting { depth ≤ 64 }
    ensures { ReadsOpen view_constraint constraint_ends_open (set_family depth) tokens.now at at result }
{
    if is(tokens, at, Kind::LeftBrace) {
        return block(alloc, tokens, at, depth);
    }
    let (item, after) = item(alloc, tokens, at, depth + 1)?;
    Ok((ConstraintNode::One(boxed(alloc, item)?), after))
}

// Constraints in braces.
#[cycle(constraint)]
fn block(
    alloc: Global,
    tokens: &[Token],
    at: usize,
    depth: u32,
) -> Result<(ConstraintNode, usize), SyntaxFault>
    requires inside { at ≤ length tokens.now }
    requires nesting { depth ≤ 64 }
    ensures { ReadsOpen view_constraint constraint_ends_open (block_family depth) tokens.now at at result }
{
    let left_brace = expect(tokens, at, Kind::LeftBrace, depth, 0)?;
    let (items, after) = items(alloc, tokens, at + 1, depth + 1)?;
    let right_brace = expect(tokens, after, Kind::RightBrace, depth, 0)?;
    let block = ConstraintNode::Block {
        left_brace,
        items,
        right_brace,
    };
    Ok((block, after + 1))
}

// Constraints up to a brace that closes.
#[cycle(constraint)]
pub fn items(
    alloc: Global,
    tokens: &[Token],
    at: usize,
    depth: u32,
) -> Result<(Vec<ConstraintItem>, usize), SyntaxFault>
    requires inside { at ≤ length tokens.now }
    requires nesting { depth ≤ 65 }
    requires behind { 1 ≤ at }
    ensures { Reads view_items (items_family depth) tokens.now (at - 1) at 0 result }
{
    let mut items = Vec::new(alloc);
    let mut place = at;
    'items: while !is(tokens, place, Kind::RightBrace) {
        let (item, after) = item(alloc, tokens, place, depth)?;
        push(&mut items, item)?;
        place = after;
    }
    Ok((items, place))
}

// One constraint.
#[cycle(constraint)]
fn item(
    alloc: Global,
    tokens: &[Token],
    at: usize,
    depth: u32,
) -> Result<(ConstraintItem, usize), SyntaxFault>
    requires inside { at ≤ length tokens.now }
    requires nesting { depth ≤ 65 }
    ensures { ReadsOpen view_constraint_item item_ends_open (item_family depth) tokens.now at at result }
{
    if is(tokens, at, Kind::Semicolon) {
        let semicolon = expect(tokens, at, Kind::Semicolon, depth, 0)?;
        return Ok((ConstraintItem::Empty(semicolon), at + 1));
    }
    if is(tokens, at, Kind::If) {
        return if_item(alloc, tokens, at, depth);
    }
    if is(tokens, at, Kind::Unique) {
        return unique_item(alloc, tokens, at, depth);
    }
    if is(tokens, at, Kind::Foreach) {
        return foreach_item(alloc, tokens, at, depth);
    }
    expr_item(alloc, tokens, at, depth)
}

// An expression that holds, or that implies constraints.
#[cycle(constraint)]
fn expr_item(
    alloc: Global,
    tokens: &[Token],
    at: usize,
    depth: u32,
) -> Result<(ConstraintItem, usize), SyntaxFault>
    requires inside { at ≤ length tokens.now }
    requires nesting { depth ≤ 65 }
    ensures { ReadsOpen view_constraint_item item_ends_open (expr_item_family depth) tokens.now at at result }
{
    let (expr, after) = outermost(alloc, tokens, at, depth)?;
    if is(tokens, after, Kind::Arrow) {
        let arrow = expect(tokens, after, Kind::Arrow, depth, 0)?;
        let (set, end) = set(alloc, tokens, after + 1, depth)?;
        let implies = ConstraintItem::Implies {
            condition: expr,
            arrow,
            set: boxed(alloc, set)?,
        };
        return Ok((implies, end));
    }
    let semicolon = expect(tokens, after, Kind::Semicolon, depth, 0)?;
    Ok((ConstraintItem::Expr { expr, semicolon }, after + 1))
}

// A condition with its constraints, and others behind `else`.
#[cycle(constraint)]
fn if_item(
    alloc: Global,
    tokens: &[Token],
    at: usize,
    depth: u32,
) -> Result<(ConstraintItem, usize), SyntaxFault>
    requires inside { at ≤ length tokens.now }
    requires nesting { depth ≤ 65 }
    ensures { ReadsOpen view_constraint_item item_ends_open (if_family depth) tokens.now at at result }
{
    let if_ = expect(tokens, at, Kind::If, depth, 0)?;
    let (condition, behind) = read_condition(alloc, tokens, at + 1, depth)?;
    let (then, after) = set(alloc, tokens, behind, depth)?;
    let then = boxed(alloc, then)?;
    let Condition {
        left_parenthesis,
        expr,
        right_parenthesis,
    } = condition;
    if !is(tokens, after, Kind::Else) {
        let only = ConstraintItem::If {
            if_,
            left_parenthesis,
            condition: expr,
            right_parenthesis,
            then,
        };
        return Ok((only, after));
    }
    let else_ = expect(tokens, after, Kind::Else, depth, 0)?;
    let (otherwise, end) = set(alloc, tokens, after + 1, depth)?;
    let both = ConstraintItem::IfElse {
        if_,
        left_parenthesis,
        condition: expr,
        right_parenthesis,
        then,
        else_,
        otherwise: boxed(alloc, otherwise)?,
    };
    Ok((both, end))
}

// Expressions whose values differ.
fn unique_item(
    alloc: Global,
    tokens: &[Token],
    at: usize,
    depth: u32,
) -> Result<(ConstraintItem, usize), SyntaxFault>
    requires inside { at ≤ length tokens.now }
    requires nesting { depth ≤ 65 }
    ensures { ReadsOpen view_constraint_item item_ends_open (unique_family depth) tokens.now at at result }
{
    let unique = expect(tokens, at, Kind::Unique, depth, 0)?;
    let left_brace = expect(tokens, at + 1, Kind::LeftBrace, depth, 0)?;
    let (first, behind) = outermost(alloc, tokens, at + 2, depth)?;
    let (rest, after) = next_exprs(alloc, tokens, behind, depth)?;
    let right_brace = expect(tokens, after, Kind::RightBrace, depth, 0)?;
    let semicolon = expect(tokens, after + 1, Kind::Semicolon, depth, 0)?;
    let item = ConstraintItem::Unique {
        unique,
        left_brace,
        first,
        rest,
        right_brace,
        semicolon,
    };
    Ok((item, after + 2))
}

// The name of an index in its brackets, and the bracket behind it.
fn read_subscript(
    tokens: &[Token],
    at: usize,
    depth: u32,
) -> Result<(Subscript, usize), SyntaxFault>
    requires inside { at ≤ length tokens.now }
    ensures { Reads view_subscript (subscript_family depth) tokens.now at at 1 result }
{
    let left_bracket = expect(tokens, at, Kind::LeftBracket, depth, 0)?;
    let name = expect_name(tokens, at + 1, depth, 0)?;
    let right_bracket = expect(tokens, at + 2, Kind::RightBracket, depth, 0)?;
    let right_parenthesis = expect(tokens, at + 3, Kind::RightParenthesis, depth, 0)?;
    let subscript = Subscript {
        left_bracket,
        name,
        right_bracket,
        right_parenthesis,
    };
    Ok((subscript, at + 4))
}

// Constraints at each index of an array.
#[cycle(constraint)]
fn foreach_item(
    alloc: Global,
    tokens: &[Token],
    at: usize,
    depth: u32,
) -> Result<(ConstraintItem, usize), SyntaxFault>
    requires inside { at ≤ length tokens.now }
    requires nesting { depth ≤ 65 }
    ensures { ReadsOpen view_constraint_item item_ends_open (foreach_family depth) tokens.now at at result }
{
    let foreach = expect(tokens, at, Kind::Foreach, depth, 0)?;
    let left_parenthesis = expect(tokens, at + 1, Kind::LeftParenthesis, depth, 0)?;
    let first = expect_name(tokens, at + 2, depth, 0)?;
    let (rest, behind) = dot_names(alloc, tokens, at + 3, depth)?;
    let (index, after) = read_subscript(tokens, behind, depth)?;
    let (set, end) = set(alloc, tokens, after, depth)?;
    let item = ConstraintItem::Foreach {
        foreach,
        left_parenthesis,
        first,
        rest,
        left_bracket: index.left_bracket,
        index: index.name,
        right_bracket: index.right_bracket,
        right_parenthesis: index.right_parenthesis,
        set: boxed(alloc, set)?,
    };
    Ok((item, end))
}
