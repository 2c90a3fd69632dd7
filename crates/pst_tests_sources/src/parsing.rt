//! What the parsers answer on texts.
ghost use Rattle.std.specs.Prelude.{◌<◌, ◌≤◌, length};
ghost use Rattle.pst_reading.specs.Ended.{IsEnded};

use crate::reading::text_tokens;
use pst_ast::SyntaxFault;
use pst_cases::write_mark;
use pst_parse_act::parse_activity;
use pst_parse_body::parse_body;
use pst_parse_decl::parse_item;
use pst_parse_expr::{parse_constraint, parse_expr};
use pst_token::Token;
use std::alloc::{AllocError, Global};

// The place behind the activity that the tokens begin with.
fn activity(alloc: Global, tokens: &[Token], depth: u32) -> Result<usize, SyntaxFault>
    requires ended { IsEnded tokens.now }
    requires some { 0 < length tokens.now }
    requires depth { depth ≤ 64 }
{
    let (_activity, after) = parse_activity(alloc, tokens, 0, depth)?;
    Ok(after)
}

// The place behind the body.
fn body(alloc: Global, tokens: &[Token], depth: u32) -> Result<usize, SyntaxFault>
    requires ended { IsEnded tokens.now }
    requires some { 0 < length tokens.now }
    requires depth { depth ≤ 64 }
{
    let (_body, after) = parse_body(alloc, tokens, 0, depth)?;
    Ok(after)
}

// The place behind the set of constraints.
fn constraint(alloc: Global, tokens: &[Token], depth: u32) -> Result<usize, SyntaxFault>
    requires ended { IsEnded tokens.now }
    requires some { 0 < length tokens.now }
    requires depth { depth ≤ 64 }
{
    let (_set, after) = parse_constraint(alloc, tokens, 0, depth)?;
    Ok(after)
}

// The place behind the expression.
fn expression(alloc: Global, tokens: &[Token], depth: u32) -> Result<usize, SyntaxFault>
    requires ended { IsEnded tokens.now }
    requires some { 0 < length tokens.now }
    requires depth { depth ≤ 64 }
{
    let (_expr, after) = parse_expr(alloc, tokens, 0, depth)?;
    Ok(after)
}

// The place behind the expression that begins at a token.
fn later(alloc: Global, tokens: &[Token], at: u32) -> Result<usize, SyntaxFault>
    requires ended { IsEnded tokens.now }
{
    let at = at as usize;
    if at >= tokens.len() {
        return Ok(0);
    }
    let (_expr, after) = parse_expr(alloc, tokens, at, 0)?;
    Ok(after)
}

// The place behind the part of a unit.
fn part(alloc: Global, tokens: &[Token]) -> Result<usize, SyntaxFault>
    requires ended { IsEnded tokens.now }
    requires some { 0 < length tokens.now }
{
    let (_item, after) = parse_item(alloc, tokens, 0)?;
    Ok(after)
}

// Writes the place of the token of this number.
fn write_token(answer: &mut String, tokens: &[Token], at: usize) -> Result<(), AllocError> {
    match tokens.get(at) {
        Some(token) => write_mark(answer, "", token.place),
        None => answer.push_str(" ?"),
    }
}

/// How parsing ended: `tree`, and the place behind it; `wrong`, and the token with which no tree goes
/// on; `deep`, and the first that breaks a limit.
pub fn ended(
    alloc: Global,
    tokens: &[Token],
    end: Result<usize, SyntaxFault>,
) -> Result<String, AllocError> {
    let (word, at) = match end {
        Ok(after) => ("tree", after),
        Err(SyntaxFault::At { at }) => ("wrong", at),
        Err(SyntaxFault::Deep { at }) => ("deep", at),
        Err(SyntaxFault::NoMemory) => ("no memory", 0),
    };
    let mut answer = String::from_str(alloc, word)?;
    write_token(&mut answer, tokens, at)?;
    Ok(answer)
}

/// Answers these calls on a text as `ended` says: `expression`, `constraint`, `body`, `activity`,
/// round which so many derivations are open as `number` says; `part` of a unit; and `later`, the
/// expression that begins at the token of this number.
pub fn answer(alloc: Global, text: &[u8], call: &str, number: u32) -> Result<String, AllocError> {
    let Some(tokens) = text_tokens(alloc, text) else {
        return String::from_str(alloc, "unread");
    };
    let tokens = tokens.as_slice();
    if number > 64 {
        return String::from_str(alloc, "too deep");
    }
    let end = match call {
        "activity" => activity(alloc, tokens, number),
        "body" => body(alloc, tokens, number),
        "constraint" => constraint(alloc, tokens, number),
        "expression" => expression(alloc, tokens, number),
        "later" => later(alloc, tokens, number),
        "part" => part(alloc, tokens),
        _ => return String::from_str(alloc, "no such call"),
    };
    ended(alloc, tokens, end)
}
