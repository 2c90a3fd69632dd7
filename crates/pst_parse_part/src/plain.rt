//! Plain types. A parser stands at a place, and `depth` derivations
//! that count are open at the tokens of its part; it answers the part and the place behind it.
ghost use Rattle.pst_ast.specs.SharedView.{view_low, view_width, view_plain};
ghost use Rattle.pst_parse_expr.specs.Constraints.{is_at};
ghost use Rattle.pst_parse_part.specs.Choices.{optional};
ghost use Rattle.pst_parse_part.specs.Families.{plain_family, bit_family, width_family, int_family, low_family};
ghost use Rattle.pst_reading.specs.Reads.{Reads};
ghost use Rattle.pst_token.specs.declared.kind.Kind.TheVariants as kind;
ghost use Rattle.std.specs.Option.{option_map};
ghost use Rattle.std.specs.Prelude.{◌≤◌, ◌-◌, length};

use pst_ast::{LowNode, PlainNode, SyntaxFault, WidthNode};
use pst_parse_expr::shared::outermost;
use pst_reading::{expect, is};
use pst_token::{Kind, Token};
use std::alloc::Global;

// The number of the lowest bit.
fn low(
    alloc: Global,
    tokens: &[Token],
    at: usize,
    depth: u32,
) -> Result<(LowNode, usize), SyntaxFault>
    requires inside { at ≤ length tokens.now }
    ensures { Reads view_low (low_family depth) tokens.now at at 1 result }
{
    let colon = expect(tokens, at, Kind::Colon, depth, 0)?;
    let (expr, after_expr) = outermost(alloc, tokens, at + 1, depth)?;
    Ok((LowNode { colon, expr }, after_expr))
}

// The number of the lowest bit, where it is written.
fn maybe_low(
    alloc: Global,
    tokens: &[Token],
    at: usize,
    depth: u32,
) -> Result<(Option<LowNode>, usize), SyntaxFault>
    requires inside { at ≤ length tokens.now }
    ensures { Reads (option_map view_low) (optional (is_at kind.Colon) (low_family depth)) tokens.now at at 0 result }
{
    if !is(tokens, at, Kind::Colon) {
        return Ok((None, at));
    }
    let (low, after) = low(alloc, tokens, at, depth)?;
    Ok((Some(low), after))
}

// The width of numbers.
fn width(
    alloc: Global,
    tokens: &[Token],
    at: usize,
    depth: u32,
) -> Result<(WidthNode, usize), SyntaxFault>
    requires inside { at ≤ length tokens.now }
    ensures { Reads view_width (width_family depth) tokens.now at at 1 result }
{
    let left_bracket = expect(tokens, at, Kind::LeftBracket, depth, 0)?;
    let (expr, after_expr) = outermost(alloc, tokens, at + 1, depth)?;
    let (low, after_low) = maybe_low(alloc, tokens, after_expr, depth)?;
    let right_bracket = expect(tokens, after_low, Kind::RightBracket, depth, 0)?;
    Ok((
        WidthNode {
            left_bracket,
            expr,
            low,
            right_bracket,
        },
        after_low + 1,
    ))
}

// The width of numbers, where it is written.
fn maybe_width(
    alloc: Global,
    tokens: &[Token],
    at: usize,
    depth: u32,
) -> Result<(Option<WidthNode>, usize), SyntaxFault>
    requires inside { at ≤ length tokens.now }
    ensures { Reads (option_map view_width) (optional (is_at kind.LeftBracket) (width_family depth)) tokens.now at at 0 result }
{
    if !is(tokens, at, Kind::LeftBracket) {
        return Ok((None, at));
    }
    let (width, after) = width(alloc, tokens, at, depth)?;
    Ok((Some(width), after))
}

// Numbers with a sign.
fn int_type(
    alloc: Global,
    tokens: &[Token],
    at: usize,
    depth: u32,
) -> Result<(PlainNode, usize), SyntaxFault>
    requires inside { at ≤ length tokens.now }
    ensures { Reads view_plain (int_family depth) tokens.now at at 1 result }
{
    let int = expect(tokens, at, Kind::Int, depth, 0)?;
    let (width, after_width) = maybe_width(alloc, tokens, at + 1, depth)?;
    Ok((PlainNode::Int { int, width }, after_width))
}

// Numbers without a sign.
fn bit_type(
    alloc: Global,
    tokens: &[Token],
    at: usize,
    depth: u32,
) -> Result<(PlainNode, usize), SyntaxFault>
    requires inside { at ≤ length tokens.now }
    ensures { Reads view_plain (bit_family depth) tokens.now at at 1 result }
{
    let bit = expect(tokens, at, Kind::Bit, depth, 0)?;
    let (width, after_width) = maybe_width(alloc, tokens, at + 1, depth)?;
    Ok((PlainNode::Bit { bit, width }, after_width))
}

/// A plain type.
pub fn plain(
    alloc: Global,
    tokens: &[Token],
    at: usize,
    depth: u32,
) -> Result<(PlainNode, usize), SyntaxFault>
    requires inside { at ≤ length tokens.now }
    ensures { Reads view_plain (plain_family depth) tokens.now at at 1 result }
{
    if is(tokens, at, Kind::Int) {
        return int_type(alloc, tokens, at, depth);
    }
    if is(tokens, at, Kind::Bit) {
        return bit_type(alloc, tokens, at, depth);
    }
    let place = expect(tokens, at, Kind::Bool, depth, 0)?;
    Ok((PlainNode::Bool(place), at + 1))
}
