//! Bodies. A parser of a statement stands at a place, with `depth` derivations that count open
//! round the statement, or open at its tokens where it is one of a sort; it answers the part and the
//! place behind it. Behind a part that ends with an `if` without `else` no `else` stands.
ghost use Rattle.std.specs.Prelude.{◌≡◌, ◌≤◌, ◌-◌, length};
ghost use Rattle.pst_ast.specs.BodyView.{view_body, view_body_statement};
ghost use Rattle.pst_ast.specs.BodyProper.{body_ends_open};
ghost use Rattle.pst_reading.specs.Reads.{Reads, ReadsOpen};
ghost use Rattle.pst_parse_body.specs.BodyFamilies.{local_family, named_family, block_family, if_family, loop_family, statement_family, statements_family, body_family, view_statements};

use crate::call::{call, maybe_value, value};
use crate::plain::begins_plain;
use pst_ast::{BodyNode, BodyStatement, SyntaxFault};
use pst_parse_expr::{Condition, read_condition};
use pst_parse_part::plain::plain;
use pst_parse_part::times::{Times, read_times};
use pst_reading::{boxed, expect, expect_name, is, push};
use pst_token::{Kind, Token};
use std::alloc::Global;

/// A body, by its parser: what `parse_body` answers, wherever the tokens end. A rule with a body
/// among its parts reads it so.
pub fn read_body(
    alloc: Global,
    tokens: &[Token],
    at: usize,
    depth: u32,
) -> Result<(BodyNode, usize), SyntaxFault>
    requires inside { at ≤ length tokens.now }
    requires nesting { depth ≤ 64 }
    ensures { Reads view_body (body_family depth) tokens.now at at 1 result }
{
    let exec = expect(tokens, at, Kind::Exec, depth, 0)?;
    let body = expect(tokens, at + 1, Kind::Body, depth, 0)?;
    let left_brace = expect(tokens, at + 2, Kind::LeftBrace, depth, 0)?;
    let (statements, after) = statements(alloc, tokens, at + 3, depth)?;
    let right_brace = expect(tokens, after, Kind::RightBrace, depth, 0)?;
    let node = BodyNode {
        exec,
        body,
        left_brace,
        statements,
        right_brace,
    };
    Ok((node, after + 1))
}

// Statements up to a brace that closes.
#[cycle(body)]
fn statements(
    alloc: Global,
    tokens: &[Token],
    at: usize,
    depth: u32,
) -> Result<(Vec<BodyStatement>, usize), SyntaxFault>
    requires inside { at ≤ length tokens.now }
    requires nesting { depth ≤ 64 }
    requires behind { 1 ≤ at }
    ensures { Reads view_statements (statements_family depth) tokens.now (at - 1) at 0 result }
{
    let mut statements = Vec::new(alloc);
    let mut place = at;
    'statements: while !is(tokens, place, Kind::RightBrace) {
        let (statement, after) = statement(alloc, tokens, place, depth + 1)?;
        push(&mut statements, statement)?;
        place = after;
    }
    Ok((statements, place))
}

// One statement.
#[cycle(body)]
fn statement(
    alloc: Global,
    tokens: &[Token],
    at: usize,
    depth: u32,
) -> Result<(BodyStatement, usize), SyntaxFault>
    requires inside { at ≤ length tokens.now }
    requires nesting { depth ≤ 65 }
    ensures { ReadsOpen view_body_statement body_ends_open (statement_family depth) tokens.now at at result }
{
    if is(tokens, at, Kind::Semicolon) {
        let semicolon = expect(tokens, at, Kind::Semicolon, depth, 0)?;
        return Ok((BodyStatement::Empty(semicolon), at + 1));
    }
    if is(tokens, at, Kind::LeftBrace) {
        return block(alloc, tokens, at, depth);
    }
    if is(tokens, at, Kind::If) {
        return if_statement(alloc, tokens, at, depth);
    }
    if is(tokens, at, Kind::Repeat) {
        return loop_statement(alloc, tokens, at, depth);
    }
    if begins_plain(tokens, at) {
        return local(alloc, tokens, at, depth);
    }
    named(alloc, tokens, at, depth)
}

// Statements in braces.
#[cycle(body)]
fn block(
    alloc: Global,
    tokens: &[Token],
    at: usize,
    depth: u32,
) -> Result<(BodyStatement, usize), SyntaxFault>
    requires inside { at ≤ length tokens.now }
    requires nesting { depth ≤ 65 }
    ensures { ReadsOpen view_body_statement body_ends_open (block_family depth) tokens.now at at result }
{
    let left_brace = expect(tokens, at, Kind::LeftBrace, depth, 0)?;
    let (statements, after) = statements(alloc, tokens, at + 1, depth)?;
    let right_brace = expect(tokens, after, Kind::RightBrace, depth, 0)?;
    let block = BodyStatement::Block {
        left_brace,
        statements,
        right_brace,
    };
    Ok((block, after + 1))
}

// A condition with its statement, and another behind `else`.
#[cycle(body)]
fn if_statement(
    alloc: Global,
    tokens: &[Token],
    at: usize,
    depth: u32,
) -> Result<(BodyStatement, usize), SyntaxFault>
    requires inside { at ≤ length tokens.now }
    requires nesting { depth ≤ 65 }
    ensures { ReadsOpen view_body_statement body_ends_open (if_family depth) tokens.now at at result }
{
    let if_ = expect(tokens, at, Kind::If, depth, 0)?;
    let (condition, behind) = read_condition(alloc, tokens, at + 1, depth)?;
    let Condition {
        left_parenthesis,
        expr,
        right_parenthesis,
    } = condition;
    let condition = boxed(alloc, expr)?;
    let (then, after) = statement(alloc, tokens, behind, depth + 1)?;
    let then = boxed(alloc, then)?;
    if !is(tokens, after, Kind::Else) {
        let only = BodyStatement::If {
            if_,
            left_parenthesis,
            condition,
            right_parenthesis,
            then,
        };
        return Ok((only, after));
    }
    let else_ = expect(tokens, after, Kind::Else, depth, 0)?;
    let (otherwise, end) = statement(alloc, tokens, after + 1, depth + 1)?;
    let both = BodyStatement::IfElse {
        if_,
        left_parenthesis,
        condition,
        right_parenthesis,
        then,
        else_,
        otherwise: boxed(alloc, otherwise)?,
    };
    Ok((both, end))
}

// A statement that is repeated.
#[cycle(body)]
fn loop_statement(
    alloc: Global,
    tokens: &[Token],
    at: usize,
    depth: u32,
) -> Result<(BodyStatement, usize), SyntaxFault>
    requires inside { at ≤ length tokens.now }
    requires nesting { depth ≤ 65 }
    ensures { ReadsOpen view_body_statement body_ends_open (loop_family depth) tokens.now at at result }
{
    let repeat = expect(tokens, at, Kind::Repeat, depth, 0)?;
    let (times, behind) = read_times(alloc, tokens, at + 1, depth)?;
    let Times {
        left_parenthesis,
        index,
        count,
        right_parenthesis,
    } = times;
    let count = boxed(alloc, count)?;
    let (statement, after) = statement(alloc, tokens, behind, depth + 1)?;
    let statement = boxed(alloc, statement)?;
    let node = BodyStatement::Repeat {
        repeat,
        left_parenthesis,
        index,
        count,
        right_parenthesis,
        statement,
    };
    Ok((node, after))
}

// A local with its first value, where it has one.
fn local(
    alloc: Global,
    tokens: &[Token],
    at: usize,
    depth: u32,
) -> Result<(BodyStatement, usize), SyntaxFault>
    requires inside { at ≤ length tokens.now }
    requires nesting { depth ≤ 65 }
    ensures { ReadsOpen view_body_statement body_ends_open (local_family depth) tokens.now at at result }
{
    let (plain, behind) = plain(alloc, tokens, at, depth)?;
    let plain = boxed(alloc, plain)?;
    let name = expect_name(tokens, behind, depth, 0)?;
    let (value, after) = maybe_value(alloc, tokens, behind + 1, depth)?;
    let semicolon = expect(tokens, after, Kind::Semicolon, depth, 0)?;
    let local = BodyStatement::Local {
        plain,
        name,
        value,
        semicolon,
    };
    Ok((local, after + 1))
}

// A value for a local, or a call.
fn named(
    alloc: Global,
    tokens: &[Token],
    at: usize,
    depth: u32,
) -> Result<(BodyStatement, usize), SyntaxFault>
    requires inside { at ≤ length tokens.now }
    requires nesting { depth ≤ 65 }
    ensures { ReadsOpen view_body_statement body_ends_open (named_family depth) tokens.now at at result }
{
    let name = expect_name(tokens, at, depth, 0)?;
    if is(tokens, at + 1, Kind::Equal) {
        let (value, after) = value(alloc, tokens, at + 1, depth)?;
        let source = boxed(alloc, value.source)?;
        let semicolon = expect(tokens, after, Kind::Semicolon, depth, 0)?;
        let assign = BodyStatement::Assign {
            name,
            equal: value.equal,
            source,
            semicolon,
        };
        return Ok((assign, after + 1));
    }
    let (call, after) = call(alloc, tokens, at + 1, depth, name)?;
    let call = boxed(alloc, call)?;
    let semicolon = expect(tokens, after, Kind::Semicolon, depth, 0)?;
    Ok((BodyStatement::Call { call, semicolon }, after + 1))
}
