//! Ranges. A parser stands at a place, and `depth` derivations
//! that count are open at the tokens of its part; it answers the part and the place behind it.
ghost use Rattle.pst_ast.specs.ExpressionView.{view_ranges, view_range, view_next_range};
ghost use Rattle.pst_parse_expr.specs.Constraints.{is_at};
ghost use Rattle.pst_parse_part.specs.Families.{ranges_family, view_list, range_family, next_range_family};
ghost use Rattle.pst_reading.specs.Lists.{listed};
ghost use Rattle.pst_reading.specs.Reads.{Reads};
ghost use Rattle.pst_token.specs.declared.kind.Kind.TheVariants as kind;
ghost use Rattle.std.specs.Prelude.{◌≤◌, ◌-◌, length};

use pst_ast::{NextRange, RangeNode, RangesNode, SyntaxFault};
use pst_parse_expr::shared::outermost;
use pst_reading::{boxed, expect, is, push};
use pst_token::{Kind, Token};
use std::alloc::Global;

// A range, each end of which is an outermost expression of its own.
fn range(
    alloc: Global,
    tokens: &[Token],
    at: usize,
    depth: u32,
) -> Result<(RangeNode, usize), SyntaxFault>
    requires inside { at ≤ length tokens.now }
    requires nesting { depth ≤ 64 }
    ensures { Reads view_range (range_family depth) tokens.now at at 1 result }
{
    let (low, after_low) = outermost(alloc, tokens, at, depth)?;
    if !is(tokens, after_low, Kind::DotDot) {
        return Ok((RangeNode::Single(low), after_low));
    }
    let dots = expect(tokens, after_low, Kind::DotDot, depth, 0)?;
    let (high, after_high) = outermost(alloc, tokens, after_low + 1, depth)?;
    Ok((RangeNode::Between { low, dots, high }, after_high))
}

// A range behind a comma.
fn next_range(
    alloc: Global,
    tokens: &[Token],
    at: usize,
    depth: u32,
) -> Result<(NextRange, usize), SyntaxFault>
    requires inside { at ≤ length tokens.now }
    ensures { Reads view_next_range (next_range_family depth) tokens.now at at 1 result }
{
    let comma = expect(tokens, at, Kind::Comma, depth, 0)?;
    let (range, after_range) = range(alloc, tokens, at + 1, depth)?;
    Ok((NextRange { comma, range }, after_range))
}

// Ranges behind commas.
fn next_ranges(
    alloc: Global,
    tokens: &[Token],
    at: usize,
    depth: u32,
) -> Result<(Vec<NextRange>, usize), SyntaxFault>
    requires inside { at ≤ length tokens.now }
    requires behind { 1 ≤ at }
    ensures { Reads (view_list view_next_range) (listed (is_at kind.Comma) (next_range_family depth)) tokens.now (at - 1) at 0 result }
{
    let mut others = Vec::new(alloc);
    let mut place = at;
    'others: while is(tokens, place, Kind::Comma) {
        let (range, after) = next_range(alloc, tokens, place, depth)?;
        push(&mut others, range)?;
        place = after;
    }
    Ok((others, place))
}

/// Ranges with commas between them.
pub fn ranges(
    alloc: Global,
    tokens: &[Token],
    at: usize,
    depth: u32,
) -> Result<(RangesNode, usize), SyntaxFault>
    requires inside { at ≤ length tokens.now }
    requires nesting { depth ≤ 64 }
    ensures { Reads view_ranges (ranges_family depth) tokens.now at at 1 result }
{
    let (head, after_head) = range(alloc, tokens, at, depth)?;
    let (rest, after_rest) = next_ranges(alloc, tokens, after_head, depth)?;
    let first = boxed(alloc, head)?;
    Ok((RangesNode { first, rest }, after_rest))
}
