//! `bind` and join forms. A parser stands at a place, and `depth` derivations that count are
//! open at the tokens of its part; it answers the part and the place behind it.
ghost use Rattle.std.specs.Prelude.{◌≡◌, ◌≤◌, ◌-◌, length, drop};
ghost use Rattle.std.specs.Option.{option_map};
ghost use Rattle.pst_ast.specs.ActivityView.{view_other_ends, view_bind, view_join};
ghost use Rattle.pst_reading.specs.Parser.{next};
ghost use Rattle.pst_reading.specs.Reads.{Reads};
ghost use Rattle.pst_parse_step.specs.ActivityParts;
ghost use Rattle.pst_parse_step.specs.ActivityPartFamilies.{end_family, next_end_family, next_ends_family, one_end_family, several_ends_family, other_ends_family, bind_family, branch_join_family, nothing_join_family, select_join_family, join_family, maybe_join_family};

use pst_ast::{BindNode, EndNode, JoinNode, NextEnd, OtherEnds, SyntaxFault};
use pst_parse_expr::shared::outermost;
use pst_parse_part::names::names;
use pst_reading::{expect, expect_name, is, push};
use pst_token::{Kind, Token};
use std::alloc::Global;

// An end of a bind: a handle and a reference of its action.
fn end(tokens: &[Token], at: usize, depth: u32) -> Result<(EndNode, usize), SyntaxFault>
    requires inside { at ≤ length tokens.now }
    ensures { Reads (λ end. end) (end_family depth) tokens.now at at 1 result }
{
    let handle = expect_name(tokens, at, depth, 0)?;
    let dot = expect(tokens, at + 1, Kind::Dot, depth, 0)?;
    let name = expect_name(tokens, at + 2, depth, 0)?;
    Ok((EndNode { handle, dot, name }, at + 3))
}

// An end behind a comma.
fn next_end(tokens: &[Token], at: usize, depth: u32) -> Result<(NextEnd, usize), SyntaxFault>
    requires inside { at ≤ length tokens.now }
    ensures { Reads (λ end. end) (next_end_family depth) tokens.now at at 1 result }
{
    let comma = expect(tokens, at, Kind::Comma, depth, 0)?;
    let (end, after) = end(tokens, at + 1, depth)?;
    Ok((NextEnd { comma, end }, after))
}

// Ends behind commas.
fn next_ends(
    alloc: Global,
    tokens: &[Token],
    at: usize,
    depth: u32,
) -> Result<(Vec<NextEnd>, usize), SyntaxFault>
    requires inside { at ≤ length tokens.now }
    requires behind { 1 ≤ at }
    ensures { Reads (λ v. v.items) (next_ends_family depth) tokens.now (at - 1) at 0 result }
{
    let mut ends = Vec::new(alloc);
    let mut place = at;
    'ends: while is(tokens, place, Kind::Comma) {
        let (end, after) = next_end(tokens, place, depth)?;
        push(&mut ends, end)?;
        place = after;
    }
    Ok((ends, place))
}

// One end that another is bound to.
fn one_end(tokens: &[Token], at: usize, depth: u32) -> Result<(OtherEnds, usize), SyntaxFault>
    requires inside { at ≤ length tokens.now }
    ensures { Reads view_other_ends (one_end_family depth) tokens.now at at 1 result }
{
    let (end, after) = end(tokens, at, depth)?;
    Ok((OtherEnds::One(end), after))
}

// Ends in braces.
fn several_ends(
    alloc: Global,
    tokens: &[Token],
    at: usize,
    depth: u32,
) -> Result<(OtherEnds, usize), SyntaxFault>
    requires inside { at ≤ length tokens.now }
    ensures { Reads view_other_ends (several_ends_family depth) tokens.now at at 1 result }
{
    let left_brace = expect(tokens, at, Kind::LeftBrace, depth, 0)?;
    let (first, behind) = end(tokens, at + 1, depth)?;
    let (rest, after) = next_ends(alloc, tokens, behind, depth)?;
    let right_brace = expect(tokens, after, Kind::RightBrace, depth, 0)?;
    let ends = OtherEnds::Several {
        left_brace,
        first,
        rest,
        right_brace,
    };
    Ok((ends, after + 1))
}

// The ends that one is bound to.
fn other_ends(
    alloc: Global,
    tokens: &[Token],
    at: usize,
    depth: u32,
) -> Result<(OtherEnds, usize), SyntaxFault>
    requires inside { at ≤ length tokens.now }
    ensures { Reads view_other_ends (other_ends_family depth) tokens.now at at 1 result }
{
    if is(tokens, at, Kind::LeftBrace) {
        return several_ends(alloc, tokens, at, depth);
    }
    one_end(tokens, at, depth)
}

/// Ends that are bound to one another.
pub fn bind(
    alloc: Global,
    tokens: &[Token],
    at: usize,
    depth: u32,
) -> Result<(BindNode, usize), SyntaxFault>
    requires inside { at ≤ length tokens.now }
    ensures { Reads view_bind (bind_family depth) tokens.now at at 1 result }
{
    let bind = expect(tokens, at, Kind::Bind, depth, 0)?;
    let (first, behind) = end(tokens, at + 1, depth)?;
    let (others, after) = other_ends(alloc, tokens, behind, depth)?;
    let semicolon = expect(tokens, after, Kind::Semicolon, depth, 0)?;
    let node = BindNode {
        bind,
        first,
        others,
        semicolon,
    };
    Ok((node, after + 1))
}

// The branches that are joined, by their labels.
fn branch_join(
    alloc: Global,
    tokens: &[Token],
    at: usize,
    depth: u32,
) -> Result<(JoinNode, usize), SyntaxFault>
    requires inside { at ≤ length tokens.now }
    ensures { Reads view_join (branch_join_family depth) tokens.now at at 1 result }
{
    let join_branch = expect(tokens, at, Kind::JoinBranch, depth, 0)?;
    let left_parenthesis = expect(tokens, at + 1, Kind::LeftParenthesis, depth, 0)?;
    let (names, after) = names(alloc, tokens, at + 2, depth)?;
    let right_parenthesis = expect(tokens, after, Kind::RightParenthesis, depth, 0)?;
    let join = JoinNode::Branch {
        join_branch,
        left_parenthesis,
        names,
        right_parenthesis,
    };
    Ok((join, after + 1))
}

// No branch is joined.
fn nothing_join(tokens: &[Token], at: usize, depth: u32) -> Result<(JoinNode, usize), SyntaxFault>
    requires inside { at ≤ length tokens.now }
    ensures { Reads view_join (nothing_join_family depth) tokens.now at at 1 result }
{
    let place = expect(tokens, at, Kind::JoinNone, depth, 0)?;
    Ok((JoinNode::Nothing(place), at + 1))
}

// As many branches are joined as an expression says.
fn select_join(
    alloc: Global,
    tokens: &[Token],
    at: usize,
    depth: u32,
) -> Result<(JoinNode, usize), SyntaxFault>
    requires inside { at ≤ length tokens.now }
    ensures { Reads view_join (select_join_family depth) tokens.now at at 1 result }
{
    let join_select = expect(tokens, at, Kind::JoinSelect, depth, 0)?;
    let left_parenthesis = expect(tokens, at + 1, Kind::LeftParenthesis, depth, 0)?;
    let (count, after) = outermost(alloc, tokens, at + 2, depth)?;
    let right_parenthesis = expect(tokens, after, Kind::RightParenthesis, depth, 0)?;
    let join = JoinNode::Select {
        join_select,
        left_parenthesis,
        count,
        right_parenthesis,
    };
    Ok((join, after + 1))
}

// Whether a join form begins at a place.
#[tactic(auto, unfolding(crate::specs::ActivityParts::begins_join))]
fn begins_join(tokens: &[Token], at: usize) -> bool
    ensures { result ≡ ActivityParts.begins_join (next (drop at tokens.now)) }
{
    is(tokens, at, Kind::JoinBranch)
        || is(tokens, at, Kind::JoinNone)
        || is(tokens, at, Kind::JoinSelect)
}

// A join form.
fn join(
    alloc: Global,
    tokens: &[Token],
    at: usize,
    depth: u32,
) -> Result<(JoinNode, usize), SyntaxFault>
    requires inside { at ≤ length tokens.now }
    ensures { Reads view_join (join_family depth) tokens.now at at 1 result }
{
    if is(tokens, at, Kind::JoinBranch) {
        return branch_join(alloc, tokens, at, depth);
    }
    if is(tokens, at, Kind::JoinNone) {
        return nothing_join(tokens, at, depth);
    }
    select_join(alloc, tokens, at, depth)
}

/// A join form, where one begins.
pub fn maybe_join(
    alloc: Global,
    tokens: &[Token],
    at: usize,
    depth: u32,
) -> Result<(Option<JoinNode>, usize), SyntaxFault>
    requires inside { at ≤ length tokens.now }
    ensures { Reads (option_map view_join) (maybe_join_family depth) tokens.now at at 0 result }
{
    if !begins_join(tokens, at) {
        return Ok((None, at));
    }
    let (join, after) = join(alloc, tokens, at, depth)?;
    Ok((Some(join), after))
}
