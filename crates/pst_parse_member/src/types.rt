//! Types. A parser stands at a place, and `depth` derivations that count are open at the tokens of
//! its part; it answers the part and the place behind it.
ghost use Rattle.pst_ast.specs.SharedView.{view_domain, view_type};
ghost use Rattle.pst_parse_part.specs.Choices.{optional};
ghost use Rattle.pst_parse_member.specs.Families.{domain_family, plain_type_family, type_family, named_type_family};
ghost use Rattle.pst_parse_expr.specs.Constraints.{is_at};
ghost use Rattle.pst_reading.specs.Reads.{Reads};
ghost use Rattle.pst_token.specs.declared.kind.Kind.TheVariants as kind;
ghost use Rattle.std.specs.Option.{option_map};
ghost use Rattle.std.specs.Prelude.{◌≤◌, ◌-◌, length};

use crate::keeping::both;
use pst_ast::{DomainNode, SyntaxFault, TypeNode};
use pst_parse_part::names::type_name;
use pst_parse_part::plain::plain;
use pst_parse_part::ranges::ranges;
use pst_reading::{expect, is, is_name};
use pst_token::{Kind, Token};
use std::alloc::Global;

// The values that a type keeps.
fn domain(
    alloc: Global,
    tokens: &[Token],
    at: usize,
    depth: u32,
) -> Result<(DomainNode, usize), SyntaxFault>
    requires inside { at ≤ length tokens.now }
    requires nesting { depth ≤ 64 }
    ensures { Reads view_domain (domain_family depth) tokens.now at at 1 result }
{
    let in_ = expect(tokens, at, Kind::In, depth, 0)?;
    let left_bracket = expect(tokens, at + 1, Kind::LeftBracket, depth, 0)?;
    let (ranges, after_ranges) = ranges(alloc, tokens, at + 2, depth)?;
    let right_bracket = expect(tokens, after_ranges, Kind::RightBracket, depth, 0)?;
    Ok((
        DomainNode {
            in_,
            left_bracket,
            ranges,
            right_bracket,
        },
        after_ranges + 1,
    ))
}

// The values that a type keeps, where they are written.
fn maybe_domain(
    alloc: Global,
    tokens: &[Token],
    at: usize,
    depth: u32,
) -> Result<(Option<DomainNode>, usize), SyntaxFault>
    requires inside { at ≤ length tokens.now }
    requires nesting { depth ≤ 64 }
    ensures { Reads (option_map view_domain) (optional (is_at kind.In) (domain_family depth)) tokens.now at at 0 result }
{
    if !is(tokens, at, Kind::In) {
        return Ok((None, at));
    }
    let (domain, after) = domain(alloc, tokens, at, depth)?;
    Ok((Some(domain), after))
}

// A plain type, and the values that it keeps.
fn plain_type(
    alloc: Global,
    tokens: &[Token],
    at: usize,
    depth: u32,
) -> Result<(TypeNode, usize), SyntaxFault>
    requires inside { at ≤ length tokens.now }
    requires nesting { depth ≤ 64 }
    ensures { Reads view_type (plain_type_family depth) tokens.now at at 1 result }
{
    let (head, after_plain) = plain(alloc, tokens, at, depth)?;
    let behind = maybe_domain(alloc, tokens, after_plain, depth);
    let (plain, (domain, after_domain)) = both(head, behind)?;
    Ok((TypeNode::Plain { plain, domain }, after_domain))
}

// A type with a name, and the values that it keeps.
fn named_type(
    alloc: Global,
    tokens: &[Token],
    at: usize,
    depth: u32,
) -> Result<(TypeNode, usize), SyntaxFault>
    requires inside { at ≤ length tokens.now }
    requires nesting { depth ≤ 64 }
    ensures { Reads view_type (named_type_family depth) tokens.now at at 1 result }
{
    let (name, after_name) = type_name(tokens, at, depth)?;
    let (domain, after_domain) = maybe_domain(alloc, tokens, after_name, depth)?;
    Ok((TypeNode::Named { name, domain }, after_domain))
}

/// The type of a field.
pub fn type_(
    alloc: Global,
    tokens: &[Token],
    at: usize,
    depth: u32,
) -> Result<(TypeNode, usize), SyntaxFault>
    requires inside { at ≤ length tokens.now }
    requires nesting { depth ≤ 64 }
    ensures { Reads view_type (type_family depth) tokens.now at at 1 result }
{
    if is_name(tokens, at) {
        return named_type(alloc, tokens, at, depth);
    }
    plain_type(alloc, tokens, at, depth)
}
