//! Components, and parts of a unit. A parser stands at a place; it answers the part and
//! the place behind it.
ghost use Rattle.pst_parse_decl.specs.Components;
ghost use Rattle.pst_ast.specs.DeclarationView.{view_component_part, view_component, view_item};
ghost use Rattle.pst_parse_decl.specs.Families.{component_part_family, component_family, item_family};
ghost use Rattle.pst_parse_part.specs.Families.{view_list};
ghost use Rattle.pst_parse_decl.specs.Inner.{activity_parser, body_parser};
ghost use Rattle.pst_parse_expr.specs.Constraints.{is_other};
ghost use Rattle.pst_reading.specs.Lists.{listed};
ghost use Rattle.pst_reading.specs.Parser.{next};
ghost use Rattle.pst_reading.specs.Reads.{Reads};
ghost use Rattle.pst_token.specs.declared.kind.Kind.TheVariants as kind;
ghost use Rattle.std.specs.Prelude.{◌≤◌, ◌-◌, ◌≡◌, length, drop};

use crate::actions::action;
use crate::boxes::boxed_part;
use crate::objects::object;
use pst_ast::{ComponentNode, ComponentPart, Item, SyntaxFault};
use pst_parse_member::enums::{enum_, function};
use pst_parse_member::keeping::both;
use pst_parse_member::members::members;
use pst_parse_member::pools::{pool, pool_bind};
use pst_reading::{expect, expect_name, is, push};
use pst_token::{Kind, Token};
use std::alloc::Global;

// The derivations that count at the tokens of a component: its own.
const IN_COMPONENT: u32 = 1;

// Whether an action begins at a place.
fn begins_action(tokens: &[Token], at: usize) -> bool
    ensures { result ≡ Components.begins_action (next (drop at tokens.now)) }
{
    is(tokens, at, Kind::Abstract) || is(tokens, at, Kind::Action)
}

// Whether an object begins at a place.
fn begins_object(tokens: &[Token], at: usize) -> bool
    ensures { result ≡ Components.begins_object (next (drop at tokens.now)) }
{
    is(tokens, at, Kind::Buffer)
        || is(tokens, at, Kind::Stream)
        || is(tokens, at, Kind::State)
        || is(tokens, at, Kind::Resource)
}

// One part of a component.
fn component_part(
    alloc: Global,
    tokens: &[Token],
    at: usize,
) -> Result<(ComponentPart, usize), SyntaxFault>
    requires inside { at ≤ length tokens.now }
    ensures { Reads view_component_part (component_part_family activity_parser body_parser 1) tokens.now at at 1 result }
{
    if begins_action(tokens, at) {
        let (action, after) = boxed_part(alloc, action(alloc, tokens, at))?;
        return Ok((ComponentPart::Action(action), after));
    }
    if begins_object(tokens, at) {
        let (object, after) = boxed_part(alloc, object(alloc, tokens, at, IN_COMPONENT))?;
        return Ok((ComponentPart::Object(object), after));
    }
    if is(tokens, at, Kind::Enum) {
        let (enum_, after) = boxed_part(alloc, enum_(alloc, tokens, at, IN_COMPONENT))?;
        return Ok((ComponentPart::Enum(enum_), after));
    }
    if is(tokens, at, Kind::Import) {
        let (function, after) = boxed_part(alloc, function(alloc, tokens, at, IN_COMPONENT))?;
        return Ok((ComponentPart::Function(function), after));
    }
    if is(tokens, at, Kind::Pool) {
        let (pool, after) = boxed_part(alloc, pool(alloc, tokens, at, IN_COMPONENT))?;
        return Ok((ComponentPart::Pool(pool), after));
    }
    if is(tokens, at, Kind::Bind) {
        let (bind, after) = boxed_part(alloc, pool_bind(alloc, tokens, at, IN_COMPONENT))?;
        return Ok((ComponentPart::PoolBind(bind), after));
    }
    if is(tokens, at, Kind::Semicolon) {
        let place = expect(tokens, at, Kind::Semicolon, IN_COMPONENT, 0)?;
        return Ok((ComponentPart::Empty(place), at + 1));
    }
    let (members, after) = boxed_part(alloc, members(alloc, tokens, at, IN_COMPONENT))?;
    Ok((ComponentPart::Members(members), after))
}

// The parts of a component, up to a brace that closes.
fn component_parts(
    alloc: Global,
    tokens: &[Token],
    at: usize,
) -> Result<(Vec<ComponentPart>, usize), SyntaxFault>
    requires inside { at ≤ length tokens.now }
    requires behind { 1 ≤ at }
    ensures { Reads (view_list view_component_part) (listed (is_other kind.RightBrace) (component_part_family activity_parser body_parser 1)) tokens.now (at - 1) at 0 result }
{
    let mut parts = Vec::new(alloc);
    let mut place = at;
    'parts: while !is(tokens, place, Kind::RightBrace) {
        let (part, after) = component_part(alloc, tokens, place)?;
        push(&mut parts, part)?;
        place = after;
    }
    Ok((parts, place))
}

// A component.
fn component(
    alloc: Global,
    tokens: &[Token],
    at: usize,
) -> Result<(ComponentNode, usize), SyntaxFault>
    requires inside { at ≤ length tokens.now }
    ensures { Reads view_component (component_family activity_parser body_parser 0) tokens.now at at 1 result }
{
    let component = expect(tokens, at, Kind::Component, IN_COMPONENT, 0)?;
    let name = expect_name(tokens, at + 1, IN_COMPONENT, 0)?;
    let left_brace = expect(tokens, at + 2, Kind::LeftBrace, IN_COMPONENT, 0)?;
    let (listed, after_parts) = component_parts(alloc, tokens, at + 3)?;
    let closing = expect(tokens, after_parts, Kind::RightBrace, IN_COMPONENT, 0);
    let (parts, right_brace) = both(listed, closing)?;
    let whole = ComponentNode {
        component,
        name,
        left_brace,
        parts,
        right_brace,
    };
    Ok((whole, after_parts + 1))
}

/// One part of a unit.
pub fn item(alloc: Global, tokens: &[Token], at: usize) -> Result<(Item, usize), SyntaxFault>
    requires inside { at ≤ length tokens.now }
    ensures { Reads view_item (item_family activity_parser body_parser 0) tokens.now at at 1 result }
{
    if is(tokens, at, Kind::Component) {
        let (component, after) = boxed_part(alloc, component(alloc, tokens, at))?;
        return Ok((Item::Component(component), after));
    }
    if is(tokens, at, Kind::Enum) {
        let (enum_, after) = boxed_part(alloc, enum_(alloc, tokens, at, 0))?;
        return Ok((Item::Enum(enum_), after));
    }
    if is(tokens, at, Kind::Import) {
        let (function, after) = boxed_part(alloc, function(alloc, tokens, at, 0))?;
        return Ok((Item::Function(function), after));
    }
    if is(tokens, at, Kind::Semicolon) {
        let place = expect(tokens, at, Kind::Semicolon, 0, 0)?;
        return Ok((Item::Empty(place), at + 1));
    }
    let (object, after) = boxed_part(alloc, object(alloc, tokens, at, 0))?;
    Ok((Item::Object(object), after))
}
