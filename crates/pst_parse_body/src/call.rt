//! Calls and values. A parser stands at a place, and `depth` derivations that count are open at the
//! tokens of its part; it answers the part and the place behind it.
ghost use Rattle.std.specs.Prelude.{◌≤◌, length};
ghost use Rattle.pst_ast.specs.BodyView.{view_call, view_source, view_value};
ghost use Rattle.pst_reading.specs.Reads.{Reads};
ghost use Rattle.pst_parse_body.specs.BodyFamilies.{arguments_family, call_family, source_family, value_family, maybe_value_family, view_arguments_option, view_value_option};

use pst_ast::{ArgumentsNode, CallNode, Name, SourceNode, SyntaxFault, ValueNode};
use pst_parse_expr::{next_exprs, outermost};
use pst_reading::{boxed, expect, expect_name, is, name_then};
use pst_token::{Kind, Token};
use std::alloc::Global;

// Arguments up to a bracket that closes, where there are any.
fn arguments(
    alloc: Global,
    tokens: &[Token],
    at: usize,
    depth: u32,
) -> Result<(Option<ArgumentsNode>, usize), SyntaxFault>
    requires inside { at ≤ length tokens.now }
    requires nesting { depth ≤ 64 }
    ensures { Reads view_arguments_option (arguments_family depth) tokens.now at at 0 result }
{
    if is(tokens, at, Kind::RightParenthesis) {
        return Ok((None, at));
    }
    let (first, behind) = outermost(alloc, tokens, at, depth)?;
    let (rest, after) = next_exprs(alloc, tokens, behind, depth)?;
    Ok((Some(ArgumentsNode { first, rest }), after))
}

// The arguments of a call in their brackets, behind its name.
pub fn call(
    alloc: Global,
    tokens: &[Token],
    at: usize,
    depth: u32,
    name: Name,
) -> Result<(CallNode, usize), SyntaxFault>
    requires inside { at ≤ length tokens.now }
    ensures { Reads view_call (call_family depth name) tokens.now at at 1 result }
{
    let left_parenthesis = expect(tokens, at, Kind::LeftParenthesis, depth, 0)?;
    let (arguments, after) = arguments(alloc, tokens, at + 1, depth)?;
    let right_parenthesis = expect(tokens, after, Kind::RightParenthesis, depth, 0)?;
    let call = CallNode {
        name,
        left_parenthesis,
        arguments,
        right_parenthesis,
    };
    Ok((call, after + 1))
}

// A call, or an expression.
fn source(
    alloc: Global,
    tokens: &[Token],
    at: usize,
    depth: u32,
) -> Result<(SourceNode, usize), SyntaxFault>
    requires inside { at ≤ length tokens.now }
    requires nesting { depth ≤ 64 }
    ensures { Reads view_source (source_family depth) tokens.now at at 1 result }
{
    if name_then(tokens, at, Kind::LeftParenthesis) {
        let name = expect_name(tokens, at, depth, 0)?;
        let (call, after) = call(alloc, tokens, at + 1, depth, name)?;
        return Ok((SourceNode::Call(call), after));
    }
    let (expr, after) = outermost(alloc, tokens, at, depth)?;
    Ok((SourceNode::Expr(expr), after))
}

// A value behind `=`.
pub fn value(
    alloc: Global,
    tokens: &[Token],
    at: usize,
    depth: u32,
) -> Result<(ValueNode, usize), SyntaxFault>
    requires inside { at ≤ length tokens.now }
    ensures { Reads view_value (value_family depth) tokens.now at at 1 result }
{
    let equal = expect(tokens, at, Kind::Equal, depth, 0)?;
    let (source, after) = source(alloc, tokens, at + 1, depth)?;
    Ok((ValueNode { equal, source }, after))
}

// A value behind `=`, where there is one.
pub fn maybe_value(
    alloc: Global,
    tokens: &[Token],
    at: usize,
    depth: u32,
) -> Result<(Option<Box<ValueNode>>, usize), SyntaxFault>
    requires inside { at ≤ length tokens.now }
    ensures { Reads view_value_option (maybe_value_family depth) tokens.now at at 0 result }
{
    if !is(tokens, at, Kind::Equal) {
        return Ok((None, at));
    }
    let (value, after) = value(alloc, tokens, at, depth)?;
    Ok((Some(boxed(alloc, value)?), after))
}
