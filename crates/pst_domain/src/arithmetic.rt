// Sums, products, quotients and remainders of spans.
ghost use Rattle.std.specs.Prelude.{◌≡◌, ◌≢◌, pos, ◌<ℤ◌, ◌≤ℤ◌, int_div, ◌∷◌, [], fold, not, IsTrue};
ghost use Rattle.std.specs.Int.{int_min, int_max};
ghost use Rattle.pst_domain.specs.Arithmetic.{negation_span, inverse_span, sum_span, difference_span, product_span, quotient_span, remainder_span, greatest_remainder, least_remainder, most_remainder};
ghost use Rattle.pst_domain.specs.Truth.{is_zero};

use crate::cut::{are_points, cut, span_of_value};
use crate::exact::{minus, over, plus, times};
use crate::truth::is_zero;
use pst_expr::Span;

/// `-span`
pub fn negation(span: Span) -> Option<Span>
    ensures { result ≡ negation_span span }
{
    cut(minus(0, span.high), minus(0, span.low))
}

/// `~span`
pub fn inverse(span: Span) -> Option<Span>
    ensures { result ≡ inverse_span span }
{
    cut(minus(-1, span.high), minus(-1, span.low))
}

/// `left + right`
pub fn sum(left: Span, right: Span) -> Option<Span>
    ensures { result ≡ sum_span left right }
{
    cut(plus(left.low, right.low), plus(left.high, right.high))
}

/// `left - right`
pub fn difference(left: Span, right: Span) -> Option<Span>
    ensures { result ≡ difference_span left right }
{
    cut(minus(left.low, right.high), minus(left.high, right.low))
}

// The least and the greatest of four numbers.
fn ends(a: i128, b: i128, c: i128, d: i128) -> (i128, i128)
    ensures least { result.0 ≡ fold int_min a (b ∷ c ∷ d ∷ []) }
    ensures greatest { result.1 ≡ fold int_max a (b ∷ c ∷ d ∷ []) }
{
    (a.min(b).min(c).min(d), a.max(b).max(c).max(d))
}

/// `left * right`
pub fn product(left: Span, right: Span) -> Option<Span>
    ensures { result ≡ product_span left right }
{
    let (least, greatest) = ends(
        times(left.low, right.low),
        times(left.low, right.high),
        times(left.high, right.low),
        times(left.high, right.high),
    );
    cut(least, greatest)
}

// The least and the greatest quotient of ends, where no end of `part` is 0.
fn quotient_ends(left: Span, part: Span) -> (i128, i128)
    requires low { part.low ≢ pos 0 }
    requires high { part.high ≢ pos 0 }
    ensures least { result.0 ≡ fold int_min (int_div left.low part.low) (int_div left.low part.high ∷ int_div left.high part.low ∷ int_div left.high part.high ∷ []) }
    ensures greatest { result.1 ≡ fold int_max (int_div left.low part.low) (int_div left.low part.high ∷ int_div left.high part.low ∷ int_div left.high part.high ∷ []) }
{
    ends(
        over(left.low, part.low),
        over(left.low, part.high),
        over(left.high, part.low),
        over(left.high, part.high),
    )
}

// The quotients by the negative numbers of a span without positive ones.
fn quotient_by_negative(left: Span, right: Span) -> Option<Span>
    requires low { right.low <ℤ pos 0 }
    requires high { right.high ≤ℤ pos 0 }
    ensures { result ≡ quotient_span left right }
{
    let part = Span {
        low: right.low,
        high: right.high.min(-1),
    };
    let (least, greatest) = quotient_ends(left, part);
    cut(least, greatest)
}

// The quotients by the positive numbers of a span without negative ones.
fn quotient_by_positive(left: Span, right: Span) -> Option<Span>
    requires low { pos 0 ≤ℤ right.low }
    requires high { pos 0 <ℤ right.high }
    ensures { result ≡ quotient_span left right }
{
    let part = Span {
        low: right.low.max(1),
        high: right.high,
    };
    let (least, greatest) = quotient_ends(left, part);
    cut(least, greatest)
}

// The quotients by the numbers other than 0 of a span with negative and positive ones.
fn quotient_by_both(left: Span, right: Span) -> Option<Span>
    requires low { right.low <ℤ pos 0 }
    requires high { pos 0 <ℤ right.high }
    ensures { result ≡ quotient_span left right }
{
    let negative = Span {
        low: right.low,
        high: -1,
    };
    let positive = Span {
        low: 1,
        high: right.high,
    };
    let (least, greatest) = quotient_ends(left, negative);
    let (other_least, other_greatest) = quotient_ends(left, positive);
    cut(least.min(other_least), greatest.max(other_greatest))
}

/// `left / right`
pub fn quotient(left: Span, right: Span) -> Option<Span>
    ensures { result ≡ quotient_span left right }
{
    if right.low >= 0 && right.high <= 0 {
        None
    } else if right.high <= 0 {
        quotient_by_negative(left, right)
    } else if right.low >= 0 {
        quotient_by_positive(left, right)
    } else {
        quotient_by_both(left, right)
    }
}

// One less than the greatest distance from 0 in a span that has another number than 0 as an end.
fn greatest_remainder(right: Span) -> i128
    requires { IsTrue (not (is_zero right)) }
    ensures { result ≡ pos (greatest_remainder right) }
{
    i128::from(right.low.unsigned_abs().max(right.high.unsigned_abs()) - 1)
}

// The least remainder, where all lie between `-most` and `most`.
fn least_remainder(left: Span, most: i128) -> i128
    requires { pos 0 ≤ℤ most }
    ensures { result ≡ least_remainder left most }
{
    if left.low < 0 {
        i128::from(left.low).max(-most)
    } else {
        0
    }
}

// The greatest remainder, where all lie between `-most` and `most`.
fn most_remainder(left: Span, most: i128) -> i128
    ensures { result ≡ most_remainder left most }
{
    if left.high > 0 {
        i128::from(left.high).min(most)
    } else {
        0
    }
}

/// `left % right`
pub fn remainder(left: Span, right: Span) -> Option<Span>
    ensures { result ≡ remainder_span left right }
{
    if is_zero(right) {
        return None;
    }
    if are_points(left, right) {
        return span_of_value(pst_num::rem(left.low, right.low));
    }
    let most = greatest_remainder(right);
    cut(least_remainder(left, most), most_remainder(left, most))
}
