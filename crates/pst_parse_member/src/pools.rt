//! Pools, and what is bound to them. A parser stands at a place, and `depth` derivations that count
//! are open at the tokens of its part; it answers the part and the place behind it.
ghost use Rattle.pst_ast.specs.DeclarationView.{view_size, view_pool, view_target, view_next_target, view_targets, view_pool_bind};
ghost use Rattle.pst_parse_part.specs.Choices.{optional};
ghost use Rattle.pst_parse_member.specs.Families.{pool_bind_family, size_family, target_family, pool_family, several_targets_family, targets_family, next_target_family};
ghost use Rattle.pst_parse_part.specs.Families.{view_list, view_itself};
ghost use Rattle.pst_parse_expr.specs.ConstraintFamilies.{dot_name_family};
ghost use Rattle.pst_parse_expr.specs.Constraints.{is_at};
ghost use Rattle.pst_reading.specs.Lists.{listed};
ghost use Rattle.pst_reading.specs.Reads.{Reads};
ghost use Rattle.pst_token.specs.declared.kind.Kind.TheVariants as kind;
ghost use Rattle.std.specs.Option.{option_map};
ghost use Rattle.std.specs.Prelude.{◌≤◌, ◌-◌, length};

use pst_ast::{
    DotName, NextTarget, PoolBindNode, PoolNode, SizeNode, SyntaxFault, TargetNode, TargetsNode,
};
use pst_parse_expr::shared::{dot_names, outermost};
use pst_parse_part::names::type_name;
use pst_reading::{expect, expect_name, is, push};
use pst_token::{Kind, Token};
use std::alloc::Global;

// The size of a pool.
fn size(
    alloc: Global,
    tokens: &[Token],
    at: usize,
    depth: u32,
) -> Result<(SizeNode, usize), SyntaxFault>
    requires inside { at ≤ length tokens.now }
    requires nesting { depth ≤ 64 }
    ensures { Reads view_size (size_family depth) tokens.now at at 1 result }
{
    let left_bracket = expect(tokens, at, Kind::LeftBracket, depth, 0)?;
    let (expr, after_expr) = outermost(alloc, tokens, at + 1, depth)?;
    let right_bracket = expect(tokens, after_expr, Kind::RightBracket, depth, 0)?;
    Ok((
        SizeNode {
            left_bracket,
            expr,
            right_bracket,
        },
        after_expr + 1,
    ))
}

// The size of a pool, where it is written.
fn maybe_size(
    alloc: Global,
    tokens: &[Token],
    at: usize,
    depth: u32,
) -> Result<(Option<SizeNode>, usize), SyntaxFault>
    requires inside { at ≤ length tokens.now }
    requires nesting { depth ≤ 64 }
    ensures { Reads (option_map view_size) (optional (is_at kind.LeftBracket) (size_family depth)) tokens.now at at 0 result }
{
    if !is(tokens, at, Kind::LeftBracket) {
        return Ok((None, at));
    }
    let (size, after) = size(alloc, tokens, at, depth)?;
    Ok((Some(size), after))
}

/// A pool.
pub fn pool(
    alloc: Global,
    tokens: &[Token],
    at: usize,
    depth: u32,
) -> Result<(PoolNode, usize), SyntaxFault>
    requires inside { at ≤ length tokens.now }
    requires nesting { depth ≤ 64 }
    ensures { Reads view_pool (pool_family depth) tokens.now at at 1 result }
{
    let pool = expect(tokens, at, Kind::Pool, depth, 0)?;
    let (size, after_size) = maybe_size(alloc, tokens, at + 1, depth)?;
    let (object, after_object) = type_name(tokens, after_size, depth)?;
    let name = expect_name(tokens, after_object, depth, 0)?;
    let semicolon = expect(tokens, after_object + 1, Kind::Semicolon, depth, 0)?;
    Ok((
        PoolNode {
            pool,
            size,
            object,
            name,
            semicolon,
        },
        after_object + 2,
    ))
}

// A name behind a dot.
fn dot_name(tokens: &[Token], at: usize, depth: u32) -> Result<(DotName, usize), SyntaxFault>
    requires inside { at ≤ length tokens.now }
    ensures { Reads view_itself (dot_name_family depth) tokens.now at at 1 result }
{
    let dot = expect(tokens, at, Kind::Dot, depth, 0)?;
    let name = expect_name(tokens, at + 1, depth, 0)?;
    Ok((DotName { dot, name }, at + 2))
}

// What is bound to a pool.
fn target(
    alloc: Global,
    tokens: &[Token],
    at: usize,
    depth: u32,
) -> Result<(TargetNode, usize), SyntaxFault>
    requires inside { at ≤ length tokens.now }
    requires nesting { depth ≤ 64 }
    ensures { Reads view_target (target_family depth) tokens.now at at 1 result }
{
    let first = expect_name(tokens, at, depth, 0)?;
    let (second, after_second) = dot_name(tokens, at + 1, depth)?;
    let (rest, after_rest) = dot_names(alloc, tokens, after_second, depth)?;
    Ok((
        TargetNode {
            first,
            second,
            rest,
        },
        after_rest,
    ))
}

// A target behind a comma.
fn next_target(
    alloc: Global,
    tokens: &[Token],
    at: usize,
    depth: u32,
) -> Result<(NextTarget, usize), SyntaxFault>
    requires inside { at ≤ length tokens.now }
    requires nesting { depth ≤ 64 }
    ensures { Reads view_next_target (next_target_family depth) tokens.now at at 1 result }
{
    let comma = expect(tokens, at, Kind::Comma, depth, 0)?;
    let (target, after_target) = target(alloc, tokens, at + 1, depth)?;
    Ok((NextTarget { comma, target }, after_target))
}

// Targets behind commas.
fn next_targets(
    alloc: Global,
    tokens: &[Token],
    at: usize,
    depth: u32,
) -> Result<(Vec<NextTarget>, usize), SyntaxFault>
    requires inside { at ≤ length tokens.now }
    requires nesting { depth ≤ 64 }
    requires behind { 1 ≤ at }
    ensures { Reads (view_list view_next_target) (listed (is_at kind.Comma) (next_target_family depth)) tokens.now (at - 1) at 0 result }
{
    let mut others = Vec::new(alloc);
    let mut place = at;
    'others: while is(tokens, place, Kind::Comma) {
        let (target, after) = next_target(alloc, tokens, place, depth)?;
        push(&mut others, target)?;
        place = after;
    }
    Ok((others, place))
}

// Targets in braces.
fn several_targets(
    alloc: Global,
    tokens: &[Token],
    at: usize,
    depth: u32,
) -> Result<(TargetsNode, usize), SyntaxFault>
    requires inside { at ≤ length tokens.now }
    requires nesting { depth ≤ 64 }
    ensures { Reads view_targets (several_targets_family depth) tokens.now at at 1 result }
{
    let left_brace = expect(tokens, at, Kind::LeftBrace, depth, 0)?;
    let (first, after_first) = target(alloc, tokens, at + 1, depth)?;
    let (rest, after_rest) = next_targets(alloc, tokens, after_first, depth)?;
    let right_brace = expect(tokens, after_rest, Kind::RightBrace, depth, 0)?;
    Ok((
        TargetsNode::Several {
            left_brace,
            first,
            rest,
            right_brace,
        },
        after_rest + 1,
    ))
}

// What is bound to a pool: all, one target, or several.
fn targets(
    alloc: Global,
    tokens: &[Token],
    at: usize,
    depth: u32,
) -> Result<(TargetsNode, usize), SyntaxFault>
    requires inside { at ≤ length tokens.now }
    requires nesting { depth ≤ 64 }
    ensures { Reads view_targets (targets_family depth) tokens.now at at 1 result }
{
    if is(tokens, at, Kind::Star) {
        let place = expect(tokens, at, Kind::Star, depth, 0)?;
        return Ok((TargetsNode::All(place), at + 1));
    }
    if is(tokens, at, Kind::LeftBrace) {
        return several_targets(alloc, tokens, at, depth);
    }
    let (target, after) = target(alloc, tokens, at, depth)?;
    Ok((TargetsNode::One(target), after))
}

/// What is bound to a pool, with its name.
pub fn pool_bind(
    alloc: Global,
    tokens: &[Token],
    at: usize,
    depth: u32,
) -> Result<(PoolBindNode, usize), SyntaxFault>
    requires inside { at ≤ length tokens.now }
    requires nesting { depth ≤ 64 }
    ensures { Reads view_pool_bind (pool_bind_family depth) tokens.now at at 1 result }
{
    let bind = expect(tokens, at, Kind::Bind, depth, 0)?;
    let pool = expect_name(tokens, at + 1, depth, 0)?;
    let (targets, after_targets) = targets(alloc, tokens, at + 2, depth)?;
    let semicolon = expect(tokens, after_targets, Kind::Semicolon, depth, 0)?;
    Ok((
        PoolBindNode {
            bind,
            pool,
            targets,
            semicolon,
        },
        after_targets + 1,
    ))
}
