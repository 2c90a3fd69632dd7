//! What stands before a statement: guards and weights of branches, and ranges of arms. A
//! parser stands at a place, and `depth` derivations that count are open at the tokens of its part;
//! it answers the part and the place behind it.
ghost use Rattle.std.specs.Prelude.{◌≡◌, ◌≤◌, ◌-◌, length, drop};
ghost use Rattle.std.specs.Option.{option_map};
ghost use Rattle.pst_ast.specs.ActivityView.{view_weight, view_guard, view_arm_label};
ghost use Rattle.pst_reading.specs.Parser.{next};
ghost use Rattle.pst_reading.specs.Reads.{Reads};
ghost use Rattle.pst_token.specs.declared.kind.Kind.TheVariants as kind;
ghost use Rattle.pst_parse_step.specs.ActivityParts;
ghost use Rattle.pst_parse_step.specs.ActivityPartFamilies.{weight_family, maybe_weight_family, condition_guard_family, weight_guard_family, guard_family, maybe_guard_family, ranges_label_family, default_label_family, arm_label_family};

use pst_ast::{ArmLabel, GuardNode, SyntaxFault, WeightNode};
use pst_parse_expr::shared::outermost;
use pst_parse_part::ranges::ranges;
use pst_reading::{expect, is};
use pst_token::{Kind, Token};
use std::alloc::Global;

// A weight in its brackets.
fn weight(
    alloc: Global,
    tokens: &[Token],
    at: usize,
    depth: u32,
) -> Result<(WeightNode, usize), SyntaxFault>
    requires inside { at ≤ length tokens.now }
    ensures { Reads view_weight (weight_family depth) tokens.now at at 1 result }
{
    let left_bracket = expect(tokens, at, Kind::LeftBracket, depth, 0)?;
    let (expr, after) = outermost(alloc, tokens, at + 1, depth)?;
    let right_bracket = expect(tokens, after, Kind::RightBracket, depth, 0)?;
    let weight = WeightNode {
        left_bracket,
        expr,
        right_bracket,
    };
    Ok((weight, after + 1))
}

// A weight, where one begins.
fn maybe_weight(
    alloc: Global,
    tokens: &[Token],
    at: usize,
    depth: u32,
) -> Result<(Option<WeightNode>, usize), SyntaxFault>
    requires inside { at ≤ length tokens.now }
    ensures { Reads (option_map view_weight) (maybe_weight_family depth) tokens.now at at 0 result }
{
    if !is(tokens, at, Kind::LeftBracket) {
        return Ok((None, at));
    }
    let (weight, after) = weight(alloc, tokens, at, depth)?;
    Ok((Some(weight), after))
}

// A condition, and a weight behind it where one stands there.
fn condition_guard(
    alloc: Global,
    tokens: &[Token],
    at: usize,
    depth: u32,
) -> Result<(GuardNode, usize), SyntaxFault>
    requires inside { at ≤ length tokens.now }
    ensures { Reads view_guard (condition_guard_family depth) tokens.now at at 1 result }
{
    let left_parenthesis = expect(tokens, at, Kind::LeftParenthesis, depth, 0)?;
    let (condition, behind) = outermost(alloc, tokens, at + 1, depth)?;
    let right_parenthesis = expect(tokens, behind, Kind::RightParenthesis, depth, 0)?;
    let (weight, after) = maybe_weight(alloc, tokens, behind + 1, depth)?;
    let colon = expect(tokens, after, Kind::Colon, depth, 0)?;
    let guard = GuardNode::Condition {
        left_parenthesis,
        condition,
        right_parenthesis,
        weight,
        colon,
    };
    Ok((guard, after + 1))
}

// A weight alone.
fn weight_guard(
    alloc: Global,
    tokens: &[Token],
    at: usize,
    depth: u32,
) -> Result<(GuardNode, usize), SyntaxFault>
    requires inside { at ≤ length tokens.now }
    ensures { Reads view_guard (weight_guard_family depth) tokens.now at at 1 result }
{
    let (weight, after) = weight(alloc, tokens, at, depth)?;
    let colon = expect(tokens, after, Kind::Colon, depth, 0)?;
    Ok((GuardNode::Weight { weight, colon }, after + 1))
}

// What stands before the statement of a branch.
fn guard(
    alloc: Global,
    tokens: &[Token],
    at: usize,
    depth: u32,
) -> Result<(GuardNode, usize), SyntaxFault>
    requires inside { at ≤ length tokens.now }
    ensures { Reads view_guard (guard_family depth) tokens.now at at 1 result }
{
    if is(tokens, at, Kind::LeftParenthesis) {
        return condition_guard(alloc, tokens, at, depth);
    }
    weight_guard(alloc, tokens, at, depth)
}

// Whether a guard begins at a place.
#[tactic(auto, unfolding(crate::specs::ActivityParts::begins_guard))]
fn begins_guard(tokens: &[Token], at: usize) -> bool
    ensures { result ≡ ActivityParts.begins_guard (next (drop at tokens.now)) }
{
    is(tokens, at, Kind::LeftParenthesis) || is(tokens, at, Kind::LeftBracket)
}

/// What stands before the statement of a branch, where something does.
pub fn maybe_guard(
    alloc: Global,
    tokens: &[Token],
    at: usize,
    depth: u32,
) -> Result<(Option<GuardNode>, usize), SyntaxFault>
    requires inside { at ≤ length tokens.now }
    ensures { Reads (option_map view_guard) (maybe_guard_family depth) tokens.now at at 0 result }
{
    if !begins_guard(tokens, at) {
        return Ok((None, at));
    }
    let (guard, after) = guard(alloc, tokens, at, depth)?;
    Ok((Some(guard), after))
}

// The values of an arm.
fn ranges_label(
    alloc: Global,
    tokens: &[Token],
    at: usize,
    depth: u32,
) -> Result<(ArmLabel, usize), SyntaxFault>
    requires inside { at ≤ length tokens.now }
    ensures { Reads view_arm_label (ranges_label_family depth) tokens.now at at 1 result }
{
    let left_bracket = expect(tokens, at, Kind::LeftBracket, depth, 0)?;
    let (ranges, after) = ranges(alloc, tokens, at + 1, depth)?;
    let right_bracket = expect(tokens, after, Kind::RightBracket, depth, 0)?;
    let label = ArmLabel::Ranges {
        left_bracket,
        ranges,
        right_bracket,
    };
    Ok((label, after + 1))
}

// All values that no other arm has.
fn default_label(tokens: &[Token], at: usize, depth: u32) -> Result<(ArmLabel, usize), SyntaxFault>
    requires inside { at ≤ length tokens.now }
    ensures { Reads view_arm_label (default_label_family depth) tokens.now at at 1 result }
{
    let place = expect(tokens, at, Kind::Default, depth, 0)?;
    Ok((ArmLabel::Default(place), at + 1))
}

/// What stands before the colon of an arm.
pub fn arm_label(
    alloc: Global,
    tokens: &[Token],
    at: usize,
    depth: u32,
) -> Result<(ArmLabel, usize), SyntaxFault>
    requires inside { at ≤ length tokens.now }
    ensures { Reads view_arm_label (arm_label_family depth) tokens.now at at 1 result }
{
    if is(tokens, at, Kind::LeftBracket) {
        return ranges_label(alloc, tokens, at, depth);
    }
    default_label(tokens, at, depth)
}
