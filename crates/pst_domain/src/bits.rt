// Operations on the bits of spans.
ghost use Rattle.std.specs.Prelude.{◌≡◌, ◌≤ℤ◌, pos};
ghost use Rattle.pst_num.specs.Bits.{bits_or, bits_xor};
ghost use Rattle.pst_domain.specs.Bits.{and_span, or_span, all_ones, ones_of, bits_within};

use crate::cut::{WHOLE, are_points, span_of_value};
use pst_expr::Span;

// From 0 to a bound where neither span has a negative number, else all values.
fn bits_within(left: Span, right: Span, bound: i64) -> Span
    ensures { result ≡ bits_within left right bound }
{
    if left.low >= 0 && right.low >= 0 {
        Span {
            low: 0,
            high: bound,
        }
    } else {
        WHOLE
    }
}

// The greatest number with as many binary digits as a number has, 0 where it is negative.
fn ones_of(number: i64) -> i64
    ensures { result ≡ ones_of number }
{
    if number <= 0 {
        0
    } else {
        i64::MAX >> (number.leading_zeros() - 1)
    }
}

// The greatest number with as many binary digits as the greater high.
fn all_ones(left: Span, right: Span) -> i64
    ensures { result ≡ all_ones left right }
{
    ones_of(left.high.max(right.high))
}

/// `left & right`
pub fn and(left: Span, right: Span) -> Option<Span>
    ensures { result ≡ and_span left right }
{
    if are_points(left, right) {
        span_of_value(pst_num::and(left.low, right.low))
    } else {
        Some(bits_within(left, right, left.high.min(right.high)))
    }
}

/// `left | right`
pub fn or(left: Span, right: Span) -> Option<Span>
    ensures { result ≡ or_span bits_or left right }
{
    if are_points(left, right) {
        span_of_value(pst_num::or(left.low, right.low))
    } else {
        Some(bits_within(left, right, all_ones(left, right)))
    }
}

/// `left ^ right`
pub fn xor(left: Span, right: Span) -> Option<Span>
    ensures { result ≡ or_span bits_xor left right }
{
    if are_points(left, right) {
        span_of_value(pst_num::xor(left.low, right.low))
    } else {
        Some(bits_within(left, right, all_ones(left, right)))
    }
}
