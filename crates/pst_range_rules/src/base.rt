//! The values of plain types.
ghost use Rattle.std.specs.Prelude.{◌≡◌, ◌≤◌, ◌^◌, pos, IfOk};
ghost use Rattle.std.specs.Option.{option_and_then, option_map};
ghost use Rattle.pst_ast.specs.SharedView.{view_plain, view_width};
ghost use Rattle.pst_range_rules.specs.Facts.{constant_at};
ghost use Rattle.pst_range_rules.specs.Types as tree;
ghost use Rattle.pst_range_rules.specs.Widths.{width_by};

use crate::facts::RangeFacts;
use crate::plain::width_value;
use pst_ast::{Environment, PlainNode, WidthNode};
use pst_base::NoMemory;
use pst_expr::Span;

// A power of 2.
fn power(exponent: u32) -> i64
    requires { exponent ≤ 62 }
    ensures { result ≡ pos (2 ^ exponent) }
{
    2i64.pow(exponent)
}

// The values of numbers with a sign that are as wide.
fn signed_bounds(width: i128) -> Option<Span>
    ensures { result ≡ option_map tree.clamped (tree.signed_of width) }
{
    if width < 0 {
        return None;
    }
    if width > 63 {
        return Some(Span {
            low: i64::MIN,
            high: i64::MAX,
        });
    }
    let half = power((width as u32).saturating_sub(1));
    Some(Span {
        low: -half,
        high: half - 1,
    })
}

// The values of numbers without a sign that are as wide.
fn unsigned_bounds(width: i128) -> Option<Span>
    ensures { result ≡ option_map tree.clamped (tree.unsigned_of width) }
{
    if width < 0 {
        return None;
    }
    if width > 62 {
        return Some(Span {
            low: 0,
            high: i64::MAX,
        });
    }
    Some(Span {
        low: 0,
        high: power(width as u32) - 1,
    })
}

// The values of `int`.
fn base_of_int(
    facts: &RangeFacts,
    at: &Environment,
    width: &Option<WidthNode>,
) -> Result<Option<Span>, NoMemory>
    ensures { IfOk result (λ r. r ≡ option_map tree.clamped (tree.base_of_int (constant_at facts.now at.now) (option_map view_width width.now))) }
{
    let Some(width) = width else {
        return Ok(signed_bounds(32));
    };
    match width_value(facts, at, width)? {
        Some(width) => Ok(signed_bounds(width)),
        None => Ok(None),
    }
}

// The values of `bit`.
fn base_of_bit(
    facts: &RangeFacts,
    at: &Environment,
    width: &Option<WidthNode>,
) -> Result<Option<Span>, NoMemory>
    ensures { IfOk result (λ r. r ≡ option_map tree.clamped (tree.base_of_bit (constant_at facts.now at.now) (option_map view_width width.now))) }
{
    let Some(width) = width else {
        return Ok(unsigned_bounds(1));
    };
    match width_value(facts, at, width)? {
        Some(width) => Ok(unsigned_bounds(width)),
        None => Ok(None),
    }
}

/// The values of a plain type from -2^63 to 2^63 - 1; none where its width isn't known.
pub fn base_span(
    facts: &RangeFacts,
    at: &Environment,
    plain: &PlainNode,
) -> Result<Option<Span>, NoMemory>
    ensures { IfOk result (λ r. r ≡ option_map tree.clamped (tree.base_span (constant_at facts.now at.now) (view_plain plain.now))) }
{
    match plain {
        PlainNode::Int { width, .. } => base_of_int(facts, at, width),
        PlainNode::Bit { width, .. } => base_of_bit(facts, at, width),
        PlainNode::Bool(_) => Ok(Some(Span { low: 0, high: 1 })),
    }
}
