// Spans without the numbers on one side of another.
ghost use Rattle.std.specs.Prelude.{◌≡◌, ◌≢◌, ℤ, pos, ◌≤ℤ◌, ◌<ℤ◌, true};
ghost use Rattle.pst_expr.specs.Spans.{IsInSpan};
ghost use Rattle.pst_operands.specs.Keeps.{Keeps};

use pst_expr::Span;

/// A span without a number.
pub const NOTHING: Span = Span { low: 1, high: 0 };

/// The numbers of a span from `low` on.
pub fn at_least(low: i128, span: Span) -> Span
    ensures { Keeps (λ x. low ≤ℤ x) span result }
{
    if low <= i128::from(span.low) {
        return span;
    }
    if low > i128::from(span.high) {
        return NOTHING;
    }
    Span {
        low: low as i64,
        high: span.high,
    }
}

/// The numbers of a span up to `high`.
pub fn at_most(high: i128, span: Span) -> Span
    ensures { Keeps (λ x. x ≤ℤ high) span result }
{
    if high >= i128::from(span.high) {
        return span;
    }
    if high < i128::from(span.low) {
        return NOTHING;
    }
    Span {
        low: span.low,
        high: high as i64,
    }
}

/// The numbers of a span above `low`.
pub fn above(low: i128, span: Span) -> Span
    ensures { Keeps (λ x. low <ℤ x) span result }
{
    if low < i128::from(span.low) {
        return span;
    }
    if low >= i128::from(span.high) {
        return NOTHING;
    }
    Span {
        low: (low + 1) as i64,
        high: span.high,
    }
}

/// The numbers of a span below `high`.
pub fn below(high: i128, span: Span) -> Span
    ensures { Keeps (λ x. x <ℤ high) span result }
{
    if high > i128::from(span.high) {
        return span;
    }
    if high <= i128::from(span.low) {
        return NOTHING;
    }
    Span {
        low: span.low,
        high: (high - 1) as i64,
    }
}

/// The numbers of a span, without one at an end.
pub fn other_than(number: i64, span: Span) -> Span
    ensures { Keeps (λ x. x ≢ number) span result }
{
    if span.low == number {
        return above(i128::from(number), span);
    }
    if span.high == number {
        return below(i128::from(number), span);
    }
    span
}

/// The numbers that two spans have.
pub fn common(left: Span, right: Span) -> Span
    ensures { (x : ℤ) → IsInSpan x left → IsInSpan x right → IsInSpan x result }
{
    at_most(
        i128::from(right.high),
        at_least(i128::from(right.low), left),
    )
}

/// The numbers of a span that aren't negative.
pub fn not_negative(span: Span) -> Span
    ensures low { pos 0 ≤ℤ result.low }
    ensures kept { Keeps (λ x. pos 0 ≤ℤ x) span result }
{
    Span {
        low: span.low.max(0),
        high: span.high,
    }
}

/// The numbers of a span that aren't positive.
pub fn not_positive(span: Span) -> Span
    ensures high { result.high ≤ℤ pos 0 }
    ensures kept { Keeps (λ x. x ≤ℤ pos 0) span result }
{
    Span {
        low: span.low,
        high: span.high.min(0),
    }
}

/// Whether a span certainly lacks a number.
pub fn lacks(span: Span, number: i64) -> bool
    ensures { result ≡ true → IsInSpan number span → ⊥ }
{
    number < span.low || span.high < number
}

/// Whether both ends of a span are above 0.
pub fn is_positive(span: Span) -> bool
    ensures { result ≡ true → (pos 0 <ℤ span.low) × (pos 0 <ℤ span.high) }
{
    span.low > 0 && span.high > 0
}

/// Whether both ends of a span are below 0.
pub fn is_negative(span: Span) -> bool
    ensures { result ≡ true → (span.low <ℤ pos 0) × (span.high <ℤ pos 0) }
{
    span.low < 0 && span.high < 0
}
