// The operands of comparisons.
ghost use Rattle.std.specs.Prelude.{◌≡◌, ◌≢◌, pos, ℤ, ◌≤ℤ◌, ◌<ℤ◌, true, int_lt, int_le, Some, not};
ghost use Rattle.std.specs.Ordering.{int_eq};
ghost use Rattle.pst_expr.specs.Spans.{IsInSpan};
ghost use Rattle.pst_expr.specs.Value.{number_of};
ghost use Rattle.pst_operands.specs.Compared.{KeepPairs};
ghost use Rattle.pst_operands.specs.Operands.{KeepOperands};

use crate::cuts::{above, at_least, at_most, below, common, lacks, other_than};
use crate::operands::Operands;
use pst_expr::Span;

// The pairs of which the left number is below the right one.
fn ascending(spans: Operands) -> Operands
    ensures { KeepPairs ◌<ℤ◌ spans result }
{
    let Operands { left, right } = spans;
    Operands {
        left: below(i128::from(right.high), left),
        right: above(i128::from(left.low), right),
    }
}

// The pairs of which the left number is at most the right one.
fn not_descending(spans: Operands) -> Operands
    ensures { KeepPairs ◌≤ℤ◌ spans result }
{
    let Operands { left, right } = spans;
    Operands {
        left: at_most(i128::from(right.high), left),
        right: at_least(i128::from(left.low), right),
    }
}

// The pairs of which the left number is above the right one.
fn descending(spans: Operands) -> Operands
    ensures { KeepPairs (λ x y. y <ℤ x) spans result }
{
    let Operands { left, right } = spans;
    Operands {
        left: above(i128::from(right.low), left),
        right: below(i128::from(left.high), right),
    }
}

// The pairs of which the left number is at least the right one.
fn not_ascending(spans: Operands) -> Operands
    ensures { KeepPairs (λ x y. y ≤ℤ x) spans result }
{
    let Operands { left, right } = spans;
    Operands {
        left: at_least(i128::from(right.low), left),
        right: at_most(i128::from(left.high), right),
    }
}

// The pairs of equal numbers.
fn alike(spans: Operands) -> Operands
    ensures { KeepPairs ◌≡◌ spans result }
{
    let both = common(spans.left, spans.right);
    Operands {
        left: both,
        right: both,
    }
}

// The numbers of a span, without an end that is the only number of another span.
fn apart(span: Span, other: Span) -> Span
    ensures { (x y : ℤ) → IsInSpan x span → IsInSpan y other → x ≢ y → IsInSpan x result }
{
    if other.low == other.high {
        other_than(other.low, span)
    } else {
        span
    }
}

// The pairs of two numbers that aren't equal.
fn unlike(spans: Operands) -> Operands
    ensures { KeepPairs ◌≢◌ spans result }
{
    Operands {
        left: apart(spans.left, spans.right),
        right: apart(spans.right, spans.left),
    }
}

/// `left < right`
pub fn less(spans: Operands, wanted: Span) -> Operands
    ensures { KeepOperands (λ x y. Some (number_of (int_lt x y))) spans wanted result }
{
    if lacks(wanted, 0) {
        ascending(spans)
    } else if lacks(wanted, 1) {
        not_ascending(spans)
    } else {
        spans
    }
}

/// `left <= right`
pub fn less_or_equal(spans: Operands, wanted: Span) -> Operands
    ensures { KeepOperands (λ x y. Some (number_of (int_le x y))) spans wanted result }
{
    if lacks(wanted, 0) {
        not_descending(spans)
    } else if lacks(wanted, 1) {
        descending(spans)
    } else {
        spans
    }
}

/// `left > right`
pub fn greater(spans: Operands, wanted: Span) -> Operands
    ensures { KeepOperands (λ x y. Some (number_of (int_lt y x))) spans wanted result }
{
    if lacks(wanted, 0) {
        descending(spans)
    } else if lacks(wanted, 1) {
        not_descending(spans)
    } else {
        spans
    }
}

/// `left >= right`
pub fn greater_or_equal(spans: Operands, wanted: Span) -> Operands
    ensures { KeepOperands (λ x y. Some (number_of (int_le y x))) spans wanted result }
{
    if lacks(wanted, 0) {
        not_ascending(spans)
    } else if lacks(wanted, 1) {
        ascending(spans)
    } else {
        spans
    }
}

/// `left == right`
pub fn equal(spans: Operands, wanted: Span) -> Operands
    ensures { KeepOperands (λ x y. Some (number_of (int_eq x y))) spans wanted result }
{
    if lacks(wanted, 0) {
        alike(spans)
    } else if lacks(wanted, 1) {
        unlike(spans)
    } else {
        spans
    }
}

/// `left != right`
pub fn not_equal(spans: Operands, wanted: Span) -> Operands
    ensures { KeepOperands (λ x y. Some (number_of (not (int_eq x y)))) spans wanted result }
{
    if lacks(wanted, 0) {
        unlike(spans)
    } else if lacks(wanted, 1) {
        alike(spans)
    } else {
        spans
    }
}
