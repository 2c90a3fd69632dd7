//! Expressions. A parser stands at a place, with `depth` derivations that count open round it and
//! `before` operators of its outermost expression in front of it; it answers the tree, the place
//! behind it, and how many of these operators stand in front of that.
ghost use Rattle.std.specs.Prelude.{◌≡◌, ◌≤◌, ◌<◌, ◌+◌, ◌-◌, ◌⊎◌, length, drop, true, is_some, Some, IfOk};
ghost use Rattle.pst_ast.specs.ExpressionView.{view_expr, view_unary, view_primary, view_path, view_next_part, view_ranges, view_range};
ghost use Rattle.pst_ast.specs.ExpressionOperators.{operators_expr, operators_unary, operators_primary, operators_path, operators_next_part, operators_maybe_index, operators_ranges, operators_range};
ghost use Rattle.pst_reading.specs.Parser.{next};
ghost use Rattle.pst_reading.specs.Gives.{Gives};
ghost use Rattle.pst_parse_operator.specs.Operators.{operator_of, is_in};
ghost use Rattle.pst_parse_operator.specs.Families.{view_index_option, GivesItem, level_family, operation_family, in_family, ranges_family, range_family, unary_family, primary_family, path_family, next_part_family, index_family};

use crate::operators::{has_in, has_operator, operator_at, prefix_at};
use pst_ast::{
    ExprNode, IndexNode, Name, NextPart, NextRange, Number, PartNode, PathNode, PrimaryNode,
    RangeNode, RangesNode, SyntaxFault, UnaryNode,
};
use pst_reading::{boxed, expect, expect_name, is, is_number, is_over, push};
use pst_token::{Kind, Token};
use std::alloc::Global;

/// How many levels of operators there are.
pub const LEVELS: u32 = 10;

/// Operators of one level and the parts between them; `above` levels bind more tightly than what
/// stands between them, up to the parts without operators between them, where it is 0.
#[cycle(expression)]
pub fn level(
    alloc: Global,
    tokens: &[Token],
    at: usize,
    depth: u32,
    before: u32,
    above: u32,
) -> Result<(ExprNode, usize, u32), SyntaxFault>
    requires inside { at ≤ length tokens.now }
    requires nesting { depth ≤ 64 }
    requires operators { before ≤ 256 }
    requires above { above ≤ 10 }
    ensures { Gives view_expr operators_expr (level_family above depth before) tokens.now at at before 1 result }
{
    if above == 0 {
        let (part, after, operators) = unary(alloc, tokens, at, depth, before)?;
        return Ok((ExprNode::Unary(part), after, operators));
    }
    let (mut left, mut place, mut count) = level(alloc, tokens, at, depth, before, above - 1)?;
    'operations: while has_operator(tokens, place, LEVELS - above)
        || has_in(tokens, place, LEVELS - above)
    {
        let (all, after, operators) = operation(
            alloc,
            tokens,
            place,
            depth,
            count,
            above - 1,
            left,
        )?;
        left = all;
        place = after;
        count = operators;
    }
    Ok((left, place, count))
}

// An operator of a level behind a left part, and the part on its right: such an operator stands here.
#[cycle(expression)]
fn operation(
    alloc: Global,
    tokens: &[Token],
    at: usize,
    depth: u32,
    before: u32,
    above: u32,
    left: ExprNode,
) -> Result<(ExprNode, usize, u32), SyntaxFault>
    requires inside { at ≤ length tokens.now }
    requires nesting { depth ≤ 64 }
    requires operators { before ≤ 256 }
    requires above { above ≤ 9 }
    requires counted { operators_expr (view_expr left) ≤ before }
    requires begun { (is_some (operator_of (9 - above) (next (drop at tokens.now))) ≡ true) ⊎ (is_in (9 - above) (next (drop at tokens.now)) ≡ true) }
    ensures { Gives view_expr operators_expr (operation_family above depth (before - operators_expr (view_expr left)) (view_expr left) (next (drop at tokens.now))) tokens.now at at (before - operators_expr (view_expr left)) 1 result }
{
    let Some(operator) = operator_at(tokens, at, LEVELS - 1 - above) else {
        return membership(alloc, tokens, at, depth, before, left);
    };
    if is_over(depth, before + 1) {
        return Err(SyntaxFault::Deep { at });
    }
    let (right, after, operators) = level(alloc, tokens, at + 1, depth, before + 1, above)?;
    let all = ExprNode::Binary {
        left: boxed(alloc, left)?,
        operator,
        place: tokens[at].place,
        right: boxed(alloc, right)?,
    };
    Ok((all, after, operators))
}

// `in` behind a left part, and its ranges.
#[cycle(expression)]
fn membership(
    alloc: Global,
    tokens: &[Token],
    at: usize,
    depth: u32,
    before: u32,
    left: ExprNode,
) -> Result<(ExprNode, usize, u32), SyntaxFault>
    requires inside { at ≤ length tokens.now }
    requires nesting { depth ≤ 64 }
    requires operators { before ≤ 256 }
    requires counted { operators_expr (view_expr left) ≤ before }
    ensures { Gives view_expr operators_expr (in_family depth (before - operators_expr (view_expr left)) (view_expr left)) tokens.now at at (before - operators_expr (view_expr left)) 1 result }
{
    let in_ = expect(tokens, at, Kind::In, depth, before + 1)?;
    let left_bracket = expect(tokens, at + 1, Kind::LeftBracket, depth, before + 1)?;
    let (ranges, after, operators) = ranges(alloc, tokens, at + 2, depth, before + 1)?;
    let right_bracket = expect(tokens, after, Kind::RightBracket, depth, operators)?;
    let all = ExprNode::In {
        left: boxed(alloc, left)?,
        in_,
        left_bracket,
        ranges,
        right_bracket,
    };
    Ok((all, after + 1, operators))
}

/// Ranges with commas between them.
#[cycle(expression)]
pub fn ranges(
    alloc: Global,
    tokens: &[Token],
    at: usize,
    depth: u32,
    before: u32,
) -> Result<(RangesNode, usize, u32), SyntaxFault>
    requires inside { at ≤ length tokens.now }
    requires nesting { depth ≤ 64 }
    requires operators { before ≤ 256 }
    requires behind { 1 ≤ at }
    ensures { Gives view_ranges operators_ranges (ranges_family depth before) tokens.now (at - 1) at before 1 result }
{
    let (first, after, operators) = range(alloc, tokens, at, depth, before)?;
    let first = boxed(alloc, first)?;
    let mut rest = Vec::new(alloc);
    let mut place = after;
    let mut count = operators;
    'more: while is(tokens, place, Kind::Comma) {
        let comma = expect(tokens, place, Kind::Comma, depth, count)?;
        let (range, after, operators) = range(alloc, tokens, place + 1, depth, count)?;
        push(&mut rest, NextRange { comma, range })?;
        place = after;
        count = operators;
    }
    Ok((RangesNode { first, rest }, place, count))
}

// One value, or all values from one to another.
#[cycle(expression)]
fn range(
    alloc: Global,
    tokens: &[Token],
    at: usize,
    depth: u32,
    before: u32,
) -> Result<(RangeNode, usize, u32), SyntaxFault>
    requires inside { at ≤ length tokens.now }
    requires nesting { depth ≤ 64 }
    requires operators { before ≤ 256 }
    requires behind { 1 ≤ at }
    ensures { Gives view_range operators_range (range_family depth before) tokens.now (at - 1) at before 1 result }
{
    let (low, after, operators) = level(alloc, tokens, at, depth, before, LEVELS)?;
    if !is(tokens, after, Kind::DotDot) {
        return Ok((RangeNode::Single(low), after, operators));
    }
    let dots = expect(tokens, after, Kind::DotDot, depth, operators)?;
    let (high, after, operators) = level(alloc, tokens, after + 1, depth, operators, LEVELS)?;
    Ok((RangeNode::Between { low, dots, high }, after, operators))
}

// Operators before a part, and the part.
#[cycle(expression)]
fn unary(
    alloc: Global,
    tokens: &[Token],
    at: usize,
    depth: u32,
    before: u32,
) -> Result<(UnaryNode, usize, u32), SyntaxFault>
    requires inside { at ≤ length tokens.now }
    requires nesting { depth ≤ 64 }
    requires operators { before ≤ 256 }
    ensures { Gives view_unary operators_unary (unary_family depth before) tokens.now at at before 1 result }
{
    let Some(operator) = prefix_at(tokens, at) else {
        let (part, after, operators) = primary(alloc, tokens, at, depth, before)?;
        return Ok((UnaryNode::Primary(part), after, operators));
    };
    if is_over(depth + 1, before + 1) {
        return Err(SyntaxFault::Deep { at });
    }
    let (operand, after, operators) = unary(alloc, tokens, at + 1, depth + 1, before + 1)?;
    let all = UnaryNode::Prefix {
        operator,
        place: tokens[at].place,
        operand: boxed(alloc, operand)?,
    };
    Ok((all, after, operators))
}

// A part without operators, but in its brackets.
#[cycle(expression)]
fn primary(
    alloc: Global,
    tokens: &[Token],
    at: usize,
    depth: u32,
    before: u32,
) -> Result<(PrimaryNode, usize, u32), SyntaxFault>
    requires inside { at ≤ length tokens.now }
    requires nesting { depth ≤ 64 }
    requires operators { before ≤ 256 }
    ensures { Gives view_primary operators_primary (primary_family depth before) tokens.now at at before 1 result }
{
    if is_number(tokens, at) {
        let token = tokens[at];
        let number = Number {
            value: token.number,
            place: token.place,
        };
        return Ok((PrimaryNode::Number(number), at + 1, before));
    }
    if is(tokens, at, Kind::LeftParenthesis) {
        let left_parenthesis = expect(tokens, at, Kind::LeftParenthesis, depth + 1, before)?;
        let (expr, after, operators) = level(alloc, tokens, at + 1, depth + 1, before, LEVELS)?;
        let right_parenthesis = expect(
            tokens,
            after,
            Kind::RightParenthesis,
            depth + 1,
            operators,
        )?;
        let group = PrimaryNode::Group {
            left_parenthesis,
            expr: boxed(alloc, expr)?,
            right_parenthesis,
        };
        return Ok((group, after + 1, operators));
    }
    if is(tokens, at, Kind::True) {
        return Ok((PrimaryNode::True(tokens[at].place), at + 1, before));
    }
    if is(tokens, at, Kind::False) {
        return Ok((PrimaryNode::False(tokens[at].place), at + 1, before));
    }
    let (path, after, operators) = path(alloc, tokens, at, depth, before)?;
    Ok((PrimaryNode::Path(path), after, operators))
}

// An item of an enum, behind its first name.
fn item(
    tokens: &[Token],
    at: usize,
    depth: u32,
    before: u32,
    first: Name,
) -> Result<(PathNode, usize), SyntaxFault>
    requires inside { at ≤ length tokens.now }
    ensures { GivesItem tokens.now at depth before first result }
{
    let colons = expect(tokens, at, Kind::ColonColon, depth, before)?;
    let second = expect_name(tokens, at + 1, depth, before)?;
    if !is(tokens, at + 2, Kind::ColonColon) {
        let path = PathNode::Item {
            first,
            colons,
            second,
        };
        return Ok((path, at + 2));
    }
    let more_colons = expect(tokens, at + 2, Kind::ColonColon, depth, before)?;
    let third = expect_name(tokens, at + 3, depth, before)?;
    let path = PathNode::LongItem {
        first,
        colons,
        second,
        more_colons,
        third,
    };
    Ok((path, at + 4))
}

// A name, and more names behind dots or `::`.
#[cycle(expression)]
fn path(
    alloc: Global,
    tokens: &[Token],
    at: usize,
    depth: u32,
    before: u32,
) -> Result<(PathNode, usize, u32), SyntaxFault>
    requires inside { at ≤ length tokens.now }
    requires nesting { depth ≤ 64 }
    requires operators { before ≤ 256 }
    ensures { Gives view_path operators_path (path_family depth before) tokens.now at at before 1 result }
{
    let name = expect_name(tokens, at, depth, before)?;
    if is(tokens, at + 1, Kind::ColonColon) {
        let (path, after) = item(tokens, at + 1, depth, before, name)?;
        return Ok((path, after, before));
    }
    let (index, after, operators) = index(alloc, tokens, at + 1, depth, before)?;
    let first = PartNode { name, index };
    let mut rest = Vec::new(alloc);
    let mut place = after;
    let mut count = operators;
    'parts: while is(tokens, place, Kind::Dot) {
        let (part, after, operators) = next_part(alloc, tokens, place, depth, count)?;
        push(&mut rest, part)?;
        place = after;
        count = operators;
    }
    Ok((PathNode::Dotted { first, rest }, place, count))
}

// A name with its index, behind a dot.
#[cycle(expression)]
fn next_part(
    alloc: Global,
    tokens: &[Token],
    at: usize,
    depth: u32,
    before: u32,
) -> Result<(NextPart, usize, u32), SyntaxFault>
    requires inside { at ≤ length tokens.now }
    requires nesting { depth ≤ 64 }
    requires operators { before ≤ 256 }
    ensures { Gives view_next_part operators_next_part (next_part_family depth before) tokens.now at at before 1 result }
{
    let dot = expect(tokens, at, Kind::Dot, depth, before)?;
    let name = expect_name(tokens, at + 1, depth, before)?;
    let (index, after, operators) = index(alloc, tokens, at + 2, depth, before)?;
    let part = PartNode { name, index };
    Ok((NextPart { dot, part }, after, operators))
}

/// The index behind a name, where there is one.
#[cycle(expression)]
pub fn index(
    alloc: Global,
    tokens: &[Token],
    at: usize,
    depth: u32,
    before: u32,
) -> Result<(Option<IndexNode>, usize, u32), SyntaxFault>
    requires inside { at ≤ length tokens.now }
    requires nesting { depth ≤ 64 }
    requires operators { before ≤ 256 }
    ensures { Gives view_index_option operators_maybe_index (index_family depth before) tokens.now at at before 0 result }
{
    if !is(tokens, at, Kind::LeftBracket) {
        return Ok((None, at, before));
    }
    let left_bracket = expect(tokens, at, Kind::LeftBracket, depth + 1, before)?;
    let (expr, after, operators) = level(alloc, tokens, at + 1, depth + 1, before, LEVELS)?;
    let right_bracket = expect(tokens, after, Kind::RightBracket, depth + 1, operators)?;
    let index = IndexNode {
        left_bracket,
        expr: boxed(alloc, expr)?,
        right_bracket,
    };
    Ok((Some(index), after + 1, operators))
}
