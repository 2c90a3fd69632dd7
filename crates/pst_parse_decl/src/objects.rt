//! Constraints that are declared, and objects. A parser stands at a place, and `depth` derivations
//! that count are open at the tokens of its part; it answers the part and the place behind it.
ghost use Rattle.pst_ast.specs.ConstraintView.{view_constraint_content, view_constraint_declaration};
ghost use Rattle.pst_ast.specs.DeclarationView.{view_object_part, view_object};
ghost use Rattle.pst_parse_decl.specs.Families.{object_word_family, constraint_declaration_family, object_part_family, content_family, object_family, named_family};
ghost use Rattle.pst_parse_part.specs.Families.{view_list, view_itself};
ghost use Rattle.pst_parse_expr.specs.Constraints.{is_at, is_other};
ghost use Rattle.pst_reading.specs.Kinds.{is_name, next_is};
ghost use Rattle.pst_reading.specs.Lists.{listed};
ghost use Rattle.pst_reading.specs.Parser.{next};
ghost use Rattle.pst_reading.specs.Reads.{Reads};
ghost use Rattle.pst_token.specs.declared.kind.Kind.TheVariants as kind;
ghost use Rattle.std.specs.Prelude.{◌≤◌, ◌+◌, ◌-◌, ◌≡◌, length, drop, ◌&&◌};

use crate::boxes::boxed_part;
use pst_ast::{
    ConstraintContent, ConstraintDeclaration, ObjectNode, ObjectPart, ObjectWord, SyntaxFault,
};
use pst_base::Place;
use pst_parse_expr::constraint::{items, set};
use pst_parse_member::keeping::both;
use pst_parse_member::members::field;
use pst_reading::{expect, expect_name, is, is_name, push};
use pst_token::{Kind, Token};
use std::alloc::Global;

// Whether a name and a brace stand at a place.
fn is_named(tokens: &[Token], at: usize) -> bool
    requires inside { at ≤ length tokens.now }
    ensures { result ≡ (next_is is_name (next (drop at tokens.now)) && is_at kind.LeftBrace (next (drop (at + 1) tokens.now))) }
{
    is_name(tokens, at) && is(tokens, at + 1, Kind::LeftBrace)
}

// Constraints with a name. The name counts as one that begins a constraint, which no limit tells
// from what it is.
fn named_constraint(
    alloc: Global,
    tokens: &[Token],
    at: usize,
    depth: u32,
) -> Result<(ConstraintContent, usize), SyntaxFault>
    requires inside { at ≤ length tokens.now }
    requires nesting { depth ≤ 63 }
    ensures { Reads view_constraint_content (named_family (depth + 1) depth) tokens.now at at 1 result }
{
    let name = expect_name(tokens, at, depth + 1, 0)?;
    let left_brace = expect(tokens, at + 1, Kind::LeftBrace, depth, 0)?;
    let (listed, after_items) = items(alloc, tokens, at + 2, depth + 1)?;
    let closing = expect(tokens, after_items, Kind::RightBrace, depth, 0);
    let (items, right_brace) = both(listed, closing)?;
    let content = ConstraintContent::Named {
        name,
        left_brace,
        items,
        right_brace,
    };
    Ok((content, after_items + 1))
}

// What stands behind the word `constraint`: constraints with a name, or a set of them.
fn content(
    alloc: Global,
    tokens: &[Token],
    at: usize,
    depth: u32,
) -> Result<(ConstraintContent, usize), SyntaxFault>
    requires inside { at ≤ length tokens.now }
    requires nesting { depth ≤ 63 }
    ensures { Reads view_constraint_content (content_family depth) tokens.now at at 1 result }
{
    if is_named(tokens, at) {
        return named_constraint(alloc, tokens, at, depth);
    }
    let (set, after) = set(alloc, tokens, at, depth)?;
    Ok((ConstraintContent::Set(set), after))
}

/// A constraint.
pub fn constraint_declaration(
    alloc: Global,
    tokens: &[Token],
    at: usize,
    depth: u32,
) -> Result<(ConstraintDeclaration, usize), SyntaxFault>
    requires inside { at ≤ length tokens.now }
    requires nesting { depth ≤ 63 }
    ensures { Reads view_constraint_declaration (constraint_declaration_family depth) tokens.now at at 1 result }
{
    let constraint = expect(tokens, at, Kind::Constraint, depth, 0)?;
    let (content, after_content) = content(alloc, tokens, at + 1, depth)?;
    Ok((
        ConstraintDeclaration {
            constraint,
            content,
        },
        after_content,
    ))
}

// The word that begins an object.
fn object_word(
    tokens: &[Token],
    at: usize,
    depth: u32,
) -> Result<((ObjectWord, Place), usize), SyntaxFault>
    requires inside { at ≤ length tokens.now }
    ensures { Reads view_itself (object_word_family depth) tokens.now at at 1 result }
{
    if is(tokens, at, Kind::Buffer) {
        let place = expect(tokens, at, Kind::Buffer, depth, 0)?;
        return Ok(((ObjectWord::Buffer, place), at + 1));
    }
    if is(tokens, at, Kind::Stream) {
        let place = expect(tokens, at, Kind::Stream, depth, 0)?;
        return Ok(((ObjectWord::Stream, place), at + 1));
    }
    if is(tokens, at, Kind::State) {
        let place = expect(tokens, at, Kind::State, depth, 0)?;
        return Ok(((ObjectWord::State, place), at + 1));
    }
    let place = expect(tokens, at, Kind::Resource, depth, 0)?;
    Ok(((ObjectWord::Resource, place), at + 1))
}

// One part of an object.
fn object_part(
    alloc: Global,
    tokens: &[Token],
    at: usize,
    depth: u32,
) -> Result<(ObjectPart, usize), SyntaxFault>
    requires inside { at ≤ length tokens.now }
    requires nesting { depth ≤ 63 }
    ensures { Reads view_object_part (object_part_family depth) tokens.now at at 1 result }
{
    if is(tokens, at, Kind::Rand) {
        let (field, after) = boxed_part(alloc, field(alloc, tokens, at, depth))?;
        return Ok((ObjectPart::Field(field), after));
    }
    if is(tokens, at, Kind::Constraint) {
        let (declaration, after) = boxed_part(
            alloc,
            constraint_declaration(alloc, tokens, at, depth),
        )?;
        return Ok((ObjectPart::Constraint(declaration), after));
    }
    let place = expect(tokens, at, Kind::Semicolon, depth, 0)?;
    Ok((ObjectPart::Empty(place), at + 1))
}

// The parts of an object, up to a brace that closes.
fn object_parts(
    alloc: Global,
    tokens: &[Token],
    at: usize,
    depth: u32,
) -> Result<(Vec<ObjectPart>, usize), SyntaxFault>
    requires inside { at ≤ length tokens.now }
    requires nesting { depth ≤ 63 }
    requires behind { 1 ≤ at }
    ensures { Reads (view_list view_object_part) (listed (is_other kind.RightBrace) (object_part_family depth)) tokens.now (at - 1) at 0 result }
{
    let mut parts = Vec::new(alloc);
    let mut place = at;
    'parts: while !is(tokens, place, Kind::RightBrace) {
        let (part, after) = object_part(alloc, tokens, place, depth)?;
        push(&mut parts, part)?;
        place = after;
    }
    Ok((parts, place))
}

/// An object.
pub fn object(
    alloc: Global,
    tokens: &[Token],
    at: usize,
    depth: u32,
) -> Result<(ObjectNode, usize), SyntaxFault>
    requires inside { at ≤ length tokens.now }
    requires nesting { depth ≤ 63 }
    ensures { Reads view_object (object_family depth) tokens.now at at 1 result }
{
    let ((word, place), after_word) = object_word(tokens, at, depth)?;
    let name = expect_name(tokens, after_word, depth, 0)?;
    let left_brace = expect(tokens, after_word + 1, Kind::LeftBrace, depth, 0)?;
    let (listed, after_parts) = object_parts(alloc, tokens, after_word + 2, depth)?;
    let closing = expect(tokens, after_parts, Kind::RightBrace, depth, 0);
    let (parts, right_brace) = both(listed, closing)?;
    let whole = ObjectNode {
        word,
        place,
        name,
        left_brace,
        parts,
        right_brace,
    };
    Ok((whole, after_parts + 1))
}
