//! The spans of plain types.
ghost use Rattle.std.specs.Prelude.{◌≡◌, IfOk};
ghost use Rattle.std.specs.Option.{option_map};
ghost use Rattle.pst_ast.specs.SharedView.{view_plain, view_width};
ghost use Rattle.pst_type_rules.specs.Domains as domain;
ghost use Rattle.pst_elab_rules.specs.Spans as tree;
ghost use Rattle.pst_sources.specs.Shown.{sources_of};

use crate::power::{power_of_two, span_between};
use pst_ast::{PlainNode, WidthNode};
use pst_base::NoMemory;
use pst_expr::Span;
use pst_sources::Known;

// A width: that many bits, or one more than the number of the highest bit, or that many where
// there is none.
fn width_or(known: &Known<'_>, otherwise: u64, width: &Option<WidthNode>) -> Result<u64, NoMemory>
    ensures { IfOk result (λ w. w ≡ tree.width_or (sources_of known.now) otherwise (option_map view_width width.now)) }
{
    let Some(width) = width else {
        return Ok(otherwise);
    };
    let amount = known.amount_of(&width.expr);
    match &width.low {
        None => Ok(amount),
        Some(_) => match amount.checked_add(1) {
            Some(width) => Ok(width),
            None => Err(NoMemory),
        },
    }
}

// The numbers of so many bits with a sign.
fn signed_span(width: u64) -> Result<Span, NoMemory>
    ensures { IfOk result (λ s. s ≡ domain.signed_span width) }
{
    let power = power_of_two(width.saturating_sub(1))?;
    span_between(-power, power - 1)
}

// The numbers of so many bits without a sign.
fn unsigned_span(width: u64) -> Result<Span, NoMemory>
    ensures { IfOk result (λ s. s ≡ domain.unsigned_span width) }
{
    let power = power_of_two(width)?;
    span_between(0, power - 1)
}

/// The values of a plain type. `int` without a width has 32 bits, `bit` has one.
pub fn plain_span(known: &Known<'_>, plain: &PlainNode) -> Result<Span, NoMemory>
    ensures { IfOk result (λ s. s ≡ tree.plain_span (sources_of known.now) (view_plain plain.now)) }
{
    match plain {
        PlainNode::Int { width, .. } => signed_span(width_or(known, 32, width)?),
        PlainNode::Bit { width, .. } => unsigned_span(width_or(known, 1, width)?),
        PlainNode::Bool(_) => Ok(Span { low: 0, high: 1 }),
    }
}
