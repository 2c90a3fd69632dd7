// The operands of a product.
ghost use Rattle.std.specs.Prelude.{◌≡◌, ℤ, pos, ◌≤ℤ◌, ◌<ℤ◌, ◌*ℤ◌, Some};
ghost use Rattle.pst_num.specs.Arithmetic.{product_of};
ghost use Rattle.pst_expr.specs.Spans.{IsInSpan};
ghost use Rattle.pst_operands.specs.Keeps.{KeepsLeft};
ghost use Rattle.pst_operands.specs.Operands.{KeepOperands};

use crate::cuts::{at_least, at_most, is_negative, is_positive, lacks, other_than};
use crate::exact::{farthest, least_from, least_up_to, most_from, most_up_to};
use crate::operands::Operands;
use pst_expr::Span;

// The numbers that aren't too low, beside a positive factor.
fn low_by_positive(span: Span, factor: Span, wanted: Span) -> Span
    requires low { pos 0 <ℤ factor.low }
    requires high { pos 0 <ℤ factor.high }
    ensures { KeepsLeft product_of span factor wanted result }
{
    if wanted.low > 0 {
        at_least(least_from(wanted.low, factor.high), span)
    } else {
        at_least(least_from(wanted.low, factor.low), span)
    }
}

// The numbers that aren't too high, beside a positive factor.
fn high_by_positive(span: Span, factor: Span, wanted: Span) -> Span
    requires low { pos 0 <ℤ factor.low }
    requires high { pos 0 <ℤ factor.high }
    ensures { KeepsLeft product_of span factor wanted result }
{
    if wanted.high < 0 {
        at_most(most_up_to(wanted.high, factor.high), span)
    } else {
        at_most(most_up_to(wanted.high, factor.low), span)
    }
}

// The numbers that aren't too high, beside a negative factor.
fn high_by_negative(span: Span, factor: Span, wanted: Span) -> Span
    requires low { factor.low <ℤ pos 0 }
    requires high { factor.high <ℤ pos 0 }
    ensures { KeepsLeft product_of span factor wanted result }
{
    if wanted.low > 0 {
        at_most(most_from(wanted.low, factor.low), span)
    } else {
        at_most(most_from(wanted.low, factor.high), span)
    }
}

// The numbers that aren't too low, beside a negative factor.
fn low_by_negative(span: Span, factor: Span, wanted: Span) -> Span
    requires low { factor.low <ℤ pos 0 }
    requires high { factor.high <ℤ pos 0 }
    ensures { KeepsLeft product_of span factor wanted result }
{
    if wanted.high < 0 {
        at_least(least_up_to(wanted.high, factor.low), span)
    } else {
        at_least(least_up_to(wanted.high, factor.high), span)
    }
}

/// The numbers beside a factor of one sign.
pub fn by_signed(span: Span, factor: Span, wanted: Span) -> Span
    ensures { KeepsLeft product_of span factor wanted result }
{
    if is_positive(factor) {
        let low = low_by_positive(span, factor, wanted);
        return high_by_positive(low, factor, wanted);
    }
    if is_negative(factor) {
        let low = low_by_negative(span, factor, wanted);
        return high_by_negative(low, factor, wanted);
    }
    span
}

// The numbers no farther from 0 than a span's: a factor other than 0 brings none nearer.
fn not_farther(span: Span, wanted: Span) -> Span
    ensures { (x y z : ℤ) → IsInSpan x span → IsInSpan z wanted → product_of x y ≡ Some z → (z ≡ pos 0 → ⊥) → IsInSpan x result }
{
    let distance = farthest(wanted);
    at_most(distance, at_least(-distance, span))
}

// A factor, from the other one.
fn factor(span: Span, other: Span, wanted: Span) -> Span
    ensures { KeepsLeft product_of span other wanted result }
{
    let cut = by_signed(span, other, wanted);
    if !lacks(wanted, 0) {
        return cut;
    }
    other_than(0, not_farther(cut, wanted))
}

/// `left * right`
pub fn product(spans: Operands, wanted: Span) -> Operands
    ensures { KeepOperands product_of spans wanted result }
{
    Operands {
        left: factor(spans.left, spans.right, wanted),
        right: factor(spans.right, spans.left, wanted),
    }
}
