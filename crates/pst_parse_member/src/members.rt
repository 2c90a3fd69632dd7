//! Fields, references, claims and members. A parser stands at a place, and `depth` derivations that
//! count are open at the tokens of its part; it answers the part and the place behind it.
ghost use Rattle.pst_ast.specs.DeclarationView.{view_next_field, view_field, view_reference, view_claim, view_members};
ghost use Rattle.pst_ast.specs.ExpressionView.{view_part};
ghost use Rattle.pst_parse_member.specs.Families.{members_family, part_family, reference_word_family, claim_family, reference_family, array_size_family, field_family, next_field_family, claim_word_family};
ghost use Rattle.pst_parse_part.specs.Families.{view_list, view_itself};
ghost use Rattle.pst_parse_expr.specs.Constraints.{is_at};
ghost use Rattle.pst_parse_operator.specs.Families.{view_index_option};
ghost use Rattle.pst_reading.specs.Lists.{listed};
ghost use Rattle.pst_reading.specs.Reads.{Reads};
ghost use Rattle.pst_token.specs.declared.kind.Kind.TheVariants as kind;
ghost use Rattle.std.specs.Prelude.{◌≤◌, ◌-◌, length};

use crate::keeping::both;
use crate::types::type_;
use pst_ast::{
    ClaimNode, ClaimWord, FieldNode, IndexNode, MembersNode, NextField, PartNode, ReferenceNode,
    ReferenceWord, SyntaxFault,
};
use pst_base::Place;
use pst_parse_operator::expression::index;
use pst_parse_part::names::{names, type_name};
use pst_reading::{expect, expect_name, is, push};
use pst_token::{Kind, Token};
use std::alloc::Global;

// The size of an array, where there is one.
fn array_size(
    alloc: Global,
    tokens: &[Token],
    at: usize,
    depth: u32,
) -> Result<(Option<IndexNode>, usize), SyntaxFault>
    requires inside { at ≤ length tokens.now }
    requires nesting { depth ≤ 64 }
    ensures { Reads view_index_option (array_size_family depth) tokens.now at at 0 result }
{
    let (size, after, _operators) = index(alloc, tokens, at, depth, 0)?;
    Ok((size, after))
}

// The name of a field, and the size of an array.
fn part(
    alloc: Global,
    tokens: &[Token],
    at: usize,
    depth: u32,
) -> Result<(PartNode, usize), SyntaxFault>
    requires inside { at ≤ length tokens.now }
    requires nesting { depth ≤ 64 }
    ensures { Reads view_part (part_family depth) tokens.now at at 1 result }
{
    let name = expect_name(tokens, at, depth, 0)?;
    let (index, after_index) = array_size(alloc, tokens, at + 1, depth)?;
    Ok((PartNode { name, index }, after_index))
}

// The name of a field behind a comma.
fn next_field(
    alloc: Global,
    tokens: &[Token],
    at: usize,
    depth: u32,
) -> Result<(NextField, usize), SyntaxFault>
    requires inside { at ≤ length tokens.now }
    requires nesting { depth ≤ 64 }
    ensures { Reads view_next_field (next_field_family depth) tokens.now at at 1 result }
{
    let comma = expect(tokens, at, Kind::Comma, depth, 0)?;
    let (part, after_part) = part(alloc, tokens, at + 1, depth)?;
    Ok((NextField { comma, part }, after_part))
}

// The names of fields behind commas.
fn next_fields(
    alloc: Global,
    tokens: &[Token],
    at: usize,
    depth: u32,
) -> Result<(Vec<NextField>, usize), SyntaxFault>
    requires inside { at ≤ length tokens.now }
    requires nesting { depth ≤ 64 }
    requires behind { 1 ≤ at }
    ensures { Reads (view_list view_next_field) (listed (is_at kind.Comma) (next_field_family depth)) tokens.now (at - 1) at 0 result }
{
    let mut others = Vec::new(alloc);
    let mut place = at;
    'others: while is(tokens, place, Kind::Comma) {
        let (field, after) = next_field(alloc, tokens, place, depth)?;
        push(&mut others, field)?;
        place = after;
    }
    Ok((others, place))
}

/// Fields of one type.
pub fn field(
    alloc: Global,
    tokens: &[Token],
    at: usize,
    depth: u32,
) -> Result<(FieldNode, usize), SyntaxFault>
    requires inside { at ≤ length tokens.now }
    requires nesting { depth ≤ 64 }
    ensures { Reads view_field (field_family depth) tokens.now at at 1 result }
{
    let rand = expect(tokens, at, Kind::Rand, depth, 0)?;
    let (typed, after_type) = type_(alloc, tokens, at + 1, depth)?;
    let name = part(alloc, tokens, after_type, depth);
    let (front, (head, after_first)) = both(typed, name)?;
    let others = next_fields(alloc, tokens, after_first, depth);
    let (names, (listed, after_rest)) = both((front, head), others)?;
    let last = expect(tokens, after_rest, Kind::Semicolon, depth, 0);
    let (((field_type, first), rest), semicolon) = both((names, listed), last)?;
    Ok((
        FieldNode {
            rand,
            field_type,
            first,
            rest,
            semicolon,
        },
        after_rest + 1,
    ))
}

/// Members of one type: handles or instances.
pub fn members(
    alloc: Global,
    tokens: &[Token],
    at: usize,
    depth: u32,
) -> Result<(MembersNode, usize), SyntaxFault>
    requires inside { at ≤ length tokens.now }
    requires nesting { depth ≤ 64 }
    ensures { Reads view_members (members_family depth) tokens.now at at 1 result }
{
    let (member_type, after_member_type) = type_name(tokens, at, depth)?;
    let (names, after_names) = names(alloc, tokens, after_member_type, depth)?;
    let semicolon = expect(tokens, after_names, Kind::Semicolon, depth, 0)?;
    Ok((
        MembersNode {
            member_type,
            names,
            semicolon,
        },
        after_names + 1,
    ))
}

// The word that begins references.
fn reference_word(
    tokens: &[Token],
    at: usize,
    depth: u32,
) -> Result<((ReferenceWord, Place), usize), SyntaxFault>
    requires inside { at ≤ length tokens.now }
    ensures { Reads view_itself (reference_word_family depth) tokens.now at at 1 result }
{
    if is(tokens, at, Kind::Input) {
        let place = expect(tokens, at, Kind::Input, depth, 0)?;
        return Ok(((ReferenceWord::Input, place), at + 1));
    }
    let place = expect(tokens, at, Kind::Output, depth, 0)?;
    Ok(((ReferenceWord::Output, place), at + 1))
}

/// References to objects of one type.
pub fn reference(
    alloc: Global,
    tokens: &[Token],
    at: usize,
    depth: u32,
) -> Result<(ReferenceNode, usize), SyntaxFault>
    requires inside { at ≤ length tokens.now }
    requires nesting { depth ≤ 64 }
    ensures { Reads view_reference (reference_family depth) tokens.now at at 1 result }
{
    let ((word, place), after_word) = reference_word(tokens, at, depth)?;
    let (object, after_object) = type_name(tokens, after_word, depth)?;
    let (names, after_names) = names(alloc, tokens, after_object, depth)?;
    let semicolon = expect(tokens, after_names, Kind::Semicolon, depth, 0)?;
    Ok((
        ReferenceNode {
            word,
            place,
            object,
            names,
            semicolon,
        },
        after_names + 1,
    ))
}

// The word that begins claims.
fn claim_word(
    tokens: &[Token],
    at: usize,
    depth: u32,
) -> Result<((ClaimWord, Place), usize), SyntaxFault>
    requires inside { at ≤ length tokens.now }
    ensures { Reads view_itself (claim_word_family depth) tokens.now at at 1 result }
{
    if is(tokens, at, Kind::Lock) {
        let place = expect(tokens, at, Kind::Lock, depth, 0)?;
        return Ok(((ClaimWord::Lock, place), at + 1));
    }
    let place = expect(tokens, at, Kind::Share, depth, 0)?;
    Ok(((ClaimWord::Share, place), at + 1))
}

/// Claims of resources of one type.
pub fn claim(
    alloc: Global,
    tokens: &[Token],
    at: usize,
    depth: u32,
) -> Result<(ClaimNode, usize), SyntaxFault>
    requires inside { at ≤ length tokens.now }
    requires nesting { depth ≤ 64 }
    ensures { Reads view_claim (claim_family depth) tokens.now at at 1 result }
{
    let ((word, place), after_word) = claim_word(tokens, at, depth)?;
    let (object, after_object) = type_name(tokens, after_word, depth)?;
    let (names, after_names) = names(alloc, tokens, after_object, depth)?;
    let semicolon = expect(tokens, after_names, Kind::Semicolon, depth, 0)?;
    Ok((
        ClaimNode {
            word,
            place,
            object,
            names,
            semicolon,
        },
        after_names + 1,
    ))
}
