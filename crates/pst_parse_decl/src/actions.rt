//! Actions. A parser stands at a place; it answers the part and the place behind it.
ghost use Rattle.pst_parse_decl.specs.Actions;
ghost use Rattle.pst_ast.specs.DeclarationView.{view_action_part, view_action};
ghost use Rattle.pst_parse_part.specs.Choices.{optional};
ghost use Rattle.pst_parse_decl.specs.Families.{action_family, action_part_family, base_family};
ghost use Rattle.pst_parse_part.specs.Families.{view_itself, view_list};
ghost use Rattle.pst_parse_decl.specs.Inner.{activity_parser, body_parser};
ghost use Rattle.pst_parse_expr.specs.Constraints.{is_at, is_other};
ghost use Rattle.pst_reading.specs.Lists.{listed};
ghost use Rattle.pst_reading.specs.Parser.{next};
ghost use Rattle.pst_reading.specs.Reads.{Reads};
ghost use Rattle.pst_token.specs.declared.kind.Kind.TheVariants as kind;
ghost use Rattle.std.specs.Prelude.{◌≤◌, ◌-◌, ◌≡◌, length, drop};

use crate::boxes::boxed_part;
use crate::inner::{activity, body};
use crate::objects::constraint_declaration;
use pst_ast::{ActionNode, ActionPart, BaseNode, SyntaxFault};
use pst_parse_member::keeping::both;
use pst_parse_member::members::{claim, field, members, reference};
use pst_parse_part::marks::maybe_mark;
use pst_parse_part::names::type_name;
use pst_reading::{expect, expect_name, is, push};
use pst_token::{Kind, Token};
use std::alloc::Global;

// The derivations that count at the tokens of an action: a component's and its own.
const IN_ACTION: u32 = 2;

// Whether a reference begins at a place.
fn begins_reference(tokens: &[Token], at: usize) -> bool
    ensures { result ≡ Actions.begins_reference (next (drop at tokens.now)) }
{
    is(tokens, at, Kind::Input) || is(tokens, at, Kind::Output)
}

// Whether a claim begins at a place.
fn begins_claim(tokens: &[Token], at: usize) -> bool
    ensures { result ≡ Actions.begins_claim (next (drop at tokens.now)) }
{
    is(tokens, at, Kind::Lock) || is(tokens, at, Kind::Share)
}

// The base of an action.
fn base(tokens: &[Token], at: usize, depth: u32) -> Result<(BaseNode, usize), SyntaxFault>
    requires inside { at ≤ length tokens.now }
    ensures { Reads view_itself (base_family depth) tokens.now at at 1 result }
{
    let colon = expect(tokens, at, Kind::Colon, depth, 0)?;
    let (name, after_name) = type_name(tokens, at + 1, depth)?;
    Ok((BaseNode { colon, name }, after_name))
}

// The base of an action, where there is one.
fn maybe_base(
    tokens: &[Token],
    at: usize,
    depth: u32,
) -> Result<(Option<BaseNode>, usize), SyntaxFault>
    requires inside { at ≤ length tokens.now }
    ensures { Reads view_itself (optional (is_at kind.Colon) (base_family depth)) tokens.now at at 0 result }
{
    if !is(tokens, at, Kind::Colon) {
        return Ok((None, at));
    }
    let (base, after) = base(tokens, at, depth)?;
    Ok((Some(base), after))
}

// One part of an action.
fn action_part(
    alloc: Global,
    tokens: &[Token],
    at: usize,
) -> Result<(ActionPart, usize), SyntaxFault>
    requires inside { at ≤ length tokens.now }
    ensures { Reads view_action_part (action_part_family activity_parser body_parser 2) tokens.now at at 1 result }
{
    if is(tokens, at, Kind::Rand) {
        let (field, after) = boxed_part(alloc, field(alloc, tokens, at, IN_ACTION))?;
        return Ok((ActionPart::Field(field), after));
    }
    if begins_reference(tokens, at) {
        let (reference, after) = boxed_part(alloc, reference(alloc, tokens, at, IN_ACTION))?;
        return Ok((ActionPart::Reference(reference), after));
    }
    if begins_claim(tokens, at) {
        let (claim, after) = boxed_part(alloc, claim(alloc, tokens, at, IN_ACTION))?;
        return Ok((ActionPart::Claim(claim), after));
    }
    if is(tokens, at, Kind::Constraint) {
        let (declaration, after) = boxed_part(
            alloc,
            constraint_declaration(alloc, tokens, at, IN_ACTION),
        )?;
        return Ok((ActionPart::Constraint(declaration), after));
    }
    if is(tokens, at, Kind::Activity) {
        let (activity, after) = boxed_part(alloc, activity(alloc, tokens, at, IN_ACTION))?;
        return Ok((ActionPart::Activity(activity), after));
    }
    if is(tokens, at, Kind::Exec) {
        let (body, after) = boxed_part(alloc, body(alloc, tokens, at, IN_ACTION))?;
        return Ok((ActionPart::Body(body), after));
    }
    if is(tokens, at, Kind::Semicolon) {
        let place = expect(tokens, at, Kind::Semicolon, IN_ACTION, 0)?;
        return Ok((ActionPart::Empty(place), at + 1));
    }
    let (members, after) = boxed_part(alloc, members(alloc, tokens, at, IN_ACTION))?;
    Ok((ActionPart::Members(members), after))
}

// The parts of an action, up to a brace that closes.
fn action_parts(
    alloc: Global,
    tokens: &[Token],
    at: usize,
) -> Result<(Vec<ActionPart>, usize), SyntaxFault>
    requires inside { at ≤ length tokens.now }
    requires behind { 1 ≤ at }
    ensures { Reads (view_list view_action_part) (listed (is_other kind.RightBrace) (action_part_family activity_parser body_parser 2)) tokens.now (at - 1) at 0 result }
{
    let mut parts = Vec::new(alloc);
    let mut place = at;
    'parts: while !is(tokens, place, Kind::RightBrace) {
        let (part, after) = action_part(alloc, tokens, place)?;
        push(&mut parts, part)?;
        place = after;
    }
    Ok((parts, place))
}

/// An action in a component.
pub fn action(
    alloc: Global,
    tokens: &[Token],
    at: usize,
) -> Result<(ActionNode, usize), SyntaxFault>
    requires inside { at ≤ length tokens.now }
    ensures { Reads view_action (action_family activity_parser body_parser 1) tokens.now at at 1 result }
{
    let (abstract_, after_abstract) = maybe_mark(tokens, at, Kind::Abstract, IN_ACTION)?;
    let action = expect(tokens, after_abstract, Kind::Action, IN_ACTION, 0)?;
    let name = expect_name(tokens, after_abstract + 1, IN_ACTION, 0)?;
    let (base, after_base) = maybe_base(tokens, after_abstract + 2, IN_ACTION)?;
    let left_brace = expect(tokens, after_base, Kind::LeftBrace, IN_ACTION, 0)?;
    let (listed, after_parts) = action_parts(alloc, tokens, after_base + 1)?;
    let closing = expect(tokens, after_parts, Kind::RightBrace, IN_ACTION, 0);
    let (parts, right_brace) = both(listed, closing)?;
    let whole = ActionNode {
        abstract_,
        action,
        name,
        base,
        left_brace,
        parts,
        right_brace,
    };
    Ok((whole, after_parts + 1))
}
