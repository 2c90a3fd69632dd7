//! The spans of plain types.
ghost use Rattle.std.specs.Prelude.{◌≡◌, ℕ, pos, Some, IfOk};
ghost use Rattle.std.specs.Option.{option_and_then, option_map};
ghost use Rattle.pst_ast.specs.SharedView.{view_plain, view_width};
ghost use Rattle.pst_type_rules.specs.Domains as domain;
ghost use Rattle.pst_range_rules.specs.Facts.{constant_at};
ghost use Rattle.pst_range_rules.specs.Types as tree;
ghost use Rattle.pst_range_rules.specs.Widths as widths;

use crate::power::{power_of_two, span_between};
use pst_ast::{Environment, PlainNode, WidthNode};
use pst_base::NoMemory;
use pst_expr::Span;
use pst_range_rules::RangeFacts;

// One more than a number.
fn one_more(number: Option<i64>) -> Option<i128>
    ensures { result ≡ option_map widths.one_more number }
{
    match number {
        None => None,
        Some(number) => Some(i128::from(number) + 1),
    }
}

// The width.
fn width_value(
    facts: &RangeFacts,
    at: &Environment,
    width: &WidthNode,
) -> Result<Option<i128>, NoMemory>
    ensures { IfOk result (λ r. r ≡ widths.width_by (constant_at facts.now at.now) (view_width width.now)) }
{
    let highest = facts.constant(at, &width.expr)?;
    let Some(low) = &width.low else {
        return Ok(highest.map(i128::from));
    };
    match facts.constant(at, &low.expr)? {
        Some(0) => Ok(one_more(highest)),
        _ => Ok(None),
    }
}

// The numbers of so many bits with a sign.
fn signed_span(width: u64) -> Result<Span, NoMemory>
    ensures { IfOk result (λ s. s ≡ domain.signed_span width) }
{
    let power = power_of_two(width.saturating_sub(1))?;
    span_between(-power, power - 1)
}

// The numbers of so many bits without a sign.
fn unsigned_span(width: u64) -> Result<Span, NoMemory>
    ensures { IfOk result (λ s. s ≡ domain.unsigned_span width) }
{
    let power = power_of_two(width)?;
    span_between(0, power - 1)
}

// A width that isn't negative.
fn natural_width(width: i128) -> Result<u64, NoMemory>
    ensures { IfOk result (λ w. pos w ≡ width) }
{
    match u64::try_from(width) {
        Ok(width) => Ok(width),
        Err(_) => Err(NoMemory),
    }
}

// The numbers of `int`.
fn span_of_int(
    facts: &RangeFacts,
    at: &Environment,
    width: &Option<WidthNode>,
) -> Result<Option<Span>, NoMemory>
    ensures { IfOk result (λ s. s ≡ tree.base_of_int (constant_at facts.now at.now) (option_map view_width width.now)) }
{
    let Some(width) = width else {
        return Ok(Some(signed_span(32)?));
    };
    match width_value(facts, at, width)? {
        None => Ok(None),
        Some(width) => Ok(Some(signed_span(natural_width(width)?)?)),
    }
}

// The numbers of `bit`.
fn span_of_bit(
    facts: &RangeFacts,
    at: &Environment,
    width: &Option<WidthNode>,
) -> Result<Option<Span>, NoMemory>
    ensures { IfOk result (λ s. s ≡ tree.base_of_bit (constant_at facts.now at.now) (option_map view_width width.now)) }
{
    let Some(width) = width else {
        return Ok(Some(unsigned_span(1)?));
    };
    match width_value(facts, at, width)? {
        None => Ok(None),
        Some(width) => Ok(Some(unsigned_span(natural_width(width)?)?)),
    }
}

/// The numbers of a plain type; none where its width isn't known. A width that no value has is
/// answered by `NoMemory`.
pub fn base_span(
    facts: &RangeFacts,
    at: &Environment,
    plain: &PlainNode,
) -> Result<Option<Span>, NoMemory>
    ensures { IfOk result (λ s. s ≡ tree.base_span (constant_at facts.now at.now) (view_plain plain.now)) }
{
    match plain {
        PlainNode::Int { width, .. } => span_of_int(facts, at, width),
        PlainNode::Bit { width, .. } => span_of_bit(facts, at, width),
        PlainNode::Bool(_) => Ok(Some(Span { low: 0, high: 1 })),
    }
}
