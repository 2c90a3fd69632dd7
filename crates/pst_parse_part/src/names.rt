//! Names of types and lists of names. A parser stands at a place, and `depth` derivations
//! that count are open at the tokens of its part; it answers the part and the place behind it.
ghost use Rattle.pst_ast.specs.SharedView.{view_names};
ghost use Rattle.pst_parse_expr.specs.Constraints.{is_at};
ghost use Rattle.pst_parse_part.specs.Choices.{optional};
ghost use Rattle.pst_parse_part.specs.Families.{scoped_name_family, view_itself, type_name_family, view_items_of, names_family, next_name_family};
ghost use Rattle.pst_reading.specs.Lists.{listed};
ghost use Rattle.pst_reading.specs.Reads.{Reads};
ghost use Rattle.pst_token.specs.declared.kind.Kind.TheVariants as kind;
ghost use Rattle.std.specs.Prelude.{◌≤◌, ◌-◌, length};

use pst_ast::{NamesNode, NextName, ScopedName, SyntaxFault, TypeName};
use pst_reading::{expect, expect_name, is, push};
use pst_token::{Kind, Token};
use std::alloc::Global;

// The name of a type behind its component's.
fn scoped_name(tokens: &[Token], at: usize, depth: u32) -> Result<(ScopedName, usize), SyntaxFault>
    requires inside { at ≤ length tokens.now }
    ensures { Reads view_itself (scoped_name_family depth) tokens.now at at 1 result }
{
    let colons = expect(tokens, at, Kind::ColonColon, depth, 0)?;
    let name = expect_name(tokens, at + 1, depth, 0)?;
    Ok((ScopedName { colons, name }, at + 2))
}

// The name of a type behind its component's, where there is one.
fn maybe_scoped_name(
    tokens: &[Token],
    at: usize,
    depth: u32,
) -> Result<(Option<ScopedName>, usize), SyntaxFault>
    requires inside { at ≤ length tokens.now }
    ensures { Reads view_itself (optional (is_at kind.ColonColon) (scoped_name_family depth)) tokens.now at at 0 result }
{
    if !is(tokens, at, Kind::ColonColon) {
        return Ok((None, at));
    }
    let (scoped_name, after) = scoped_name(tokens, at, depth)?;
    Ok((Some(scoped_name), after))
}

/// The name of a type.
pub fn type_name(tokens: &[Token], at: usize, depth: u32) -> Result<(TypeName, usize), SyntaxFault>
    requires inside { at ≤ length tokens.now }
    ensures { Reads view_itself (type_name_family depth) tokens.now at at 1 result }
{
    let first = expect_name(tokens, at, depth, 0)?;
    let (second, after_second) = maybe_scoped_name(tokens, at + 1, depth)?;
    Ok((TypeName { first, second }, after_second))
}

// A name behind a comma.
fn next_name(tokens: &[Token], at: usize, depth: u32) -> Result<(NextName, usize), SyntaxFault>
    requires inside { at ≤ length tokens.now }
    ensures { Reads view_itself (next_name_family depth) tokens.now at at 1 result }
{
    let comma = expect(tokens, at, Kind::Comma, depth, 0)?;
    let name = expect_name(tokens, at + 1, depth, 0)?;
    Ok((NextName { comma, name }, at + 2))
}

// Names behind commas.
fn next_names(
    alloc: Global,
    tokens: &[Token],
    at: usize,
    depth: u32,
) -> Result<(Vec<NextName>, usize), SyntaxFault>
    requires inside { at ≤ length tokens.now }
    requires behind { 1 ≤ at }
    ensures { Reads view_items_of (listed (is_at kind.Comma) (next_name_family depth)) tokens.now (at - 1) at 0 result }
{
    let mut others = Vec::new(alloc);
    let mut place = at;
    'others: while is(tokens, place, Kind::Comma) {
        let (name, after) = next_name(tokens, place, depth)?;
        push(&mut others, name)?;
        place = after;
    }
    Ok((others, place))
}

/// Names with commas between them.
pub fn names(
    alloc: Global,
    tokens: &[Token],
    at: usize,
    depth: u32,
) -> Result<(NamesNode, usize), SyntaxFault>
    requires inside { at ≤ length tokens.now }
    ensures { Reads view_names (names_family depth) tokens.now at at 1 result }
{
    let first = expect_name(tokens, at, depth, 0)?;
    let (rest, after_rest) = next_names(alloc, tokens, at + 1, depth)?;
    Ok((NamesNode { first, rest }, after_rest))
}
