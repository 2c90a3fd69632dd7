// The operands of a remainder.
ghost use Rattle.std.specs.Prelude.{◌≡◌, ℤ, pos, ◌≤ℤ◌, ◌<ℤ◌, Some, IfSome};
ghost use Rattle.pst_expr.specs.Spans.{IsInSpan};
ghost use Rattle.pst_num.specs.Arithmetic.{remainder_of};
ghost use Rattle.pst_operands.specs.Keeps.{KeepsLeft, KeepsRight};
ghost use Rattle.pst_operands.specs.Residues.{IsResidue, KeepsResidues, IsMirrored, IsDistance, KeepsNegativeResidues};
ghost use Rattle.pst_operands.specs.Operands.{KeepOperands};

use crate::cuts::{above, at_least, at_most, below, not_negative, not_positive, other_than};
use crate::exact::{minus, moved, moved_back, moved_on, rest};
use crate::operands::Operands;
use pst_expr::Span;
use pst_num::{division_rounds_towards_zero, neg};

/// What a number that isn't negative leaves of a multiple of a positive one.
pub fn residue(number: i64, modulus: i64) -> i64
    requires number { pos 0 ≤ℤ number }
    requires modulus { pos 0 <ℤ modulus }
    ensures { IsResidue modulus number result }
{
    division_rounds_towards_zero();
    rest(number, modulus)
}

// The numbers from the first one on that leaves a wanted residue.
fn from_first(span: Span, modulus: i64, wanted: Span) -> Span
    requires span { pos 0 ≤ℤ span.low }
    requires modulus { pos 0 <ℤ modulus }
    ensures { KeepsResidues modulus span wanted result }
{
    let left = residue(span.low, modulus);
    if left < wanted.low {
        return at_least(moved(span.low, left, wanted.low), span);
    }
    if left > wanted.high {
        return at_least(moved_on(span.low, left, wanted.low, modulus), span);
    }
    span
}

// The numbers up to the last one that leaves a wanted residue.
fn to_last(span: Span, modulus: i64, wanted: Span) -> Span
    requires span { pos 0 ≤ℤ span.high }
    requires modulus { pos 0 <ℤ modulus }
    ensures { KeepsResidues modulus span wanted result }
{
    let left = residue(span.high, modulus);
    if left > wanted.high {
        return at_most(moved(span.high, left, wanted.high), span);
    }
    if left < wanted.low {
        return at_most(moved_back(span.high, left, wanted.high, modulus), span);
    }
    span
}

/// The numbers of a span without negative ones, from the first to the last that leave a wanted residue.
pub fn residues(span: Span, modulus: i64, wanted: Span) -> Span
    requires span { pos 0 ≤ℤ span.low }
    requires modulus { pos 0 <ℤ modulus }
    ensures { KeepsResidues modulus span wanted result }
{
    let cut = from_first(span, modulus, wanted);
    if cut.high < 0 {
        return cut;
    }
    to_last(cut, modulus, wanted)
}

// The numbers from the least to the greatest of two spans.
fn joined(left: Span, right: Span) -> Span
    ensures left { (x : ℤ) → IsInSpan x left → IsInSpan x result }
    ensures right { (x : ℤ) → IsInSpan x right → IsInSpan x result }
{
    if left.high < left.low {
        return right;
    }
    if right.high < right.low {
        return left;
    }
    Span {
        low: left.low.min(right.low),
        high: left.high.max(right.high),
    }
}

// The same distances on the other side of 0, where these are values.
fn mirrored(span: Span) -> Option<Span>
    ensures { IfSome result (λ turned. IsMirrored span turned) }
{
    let low = neg(span.high)?;
    let high = neg(span.low)?;
    Some(Span { low, high })
}

// The numbers of a span, none above 0, that leave a wanted residue below 0.
fn negative_residues(span: Span, modulus: i64, wanted: Span) -> Span
    requires span { span.high ≤ℤ pos 0 }
    requires modulus { pos 0 <ℤ modulus }
    ensures { KeepsNegativeResidues modulus span wanted result }
{
    let Some(turned) = mirrored(span) else {
        return span;
    };
    let Some(wanted) = mirrored(wanted) else {
        return span;
    };
    match mirrored(residues(turned, modulus, wanted)) {
        Some(cut) => cut,
        None => span,
    }
}

// The distance of a number from 0, where it is a value and isn't 0.
fn distance(number: i64) -> Option<i64>
    ensures { IfSome result (λ modulus. IsDistance number modulus) }
{
    if number > 0 {
        return Some(number);
    }
    if number < 0 { neg(number) } else { None }
}

// The dividends of one divisor.
fn by_point(span: Span, divisor: i64, wanted: Span) -> Span
    ensures { (x z : ℤ) → IsInSpan x span → IsInSpan z wanted → remainder_of x divisor ≡ Some z → IsInSpan x result }
{
    division_rounds_towards_zero();
    let Some(modulus) = distance(divisor) else {
        return span;
    };
    let low = negative_residues(not_positive(span), modulus, wanted);
    let high = residues(not_negative(span), modulus, wanted);
    joined(low, high)
}

// The dividends by the sign of the remainder, which is theirs.
fn by_sign(span: Span, divisor: Span, wanted: Span) -> Span
    ensures { KeepsLeft remainder_of span divisor wanted result }
{
    division_rounds_towards_zero();
    if wanted.low > 0 {
        return at_least(i128::from(wanted.low), span);
    }
    if wanted.high < 0 {
        return at_most(i128::from(wanted.high), span);
    }
    span
}

// The dividends.
fn dividend(span: Span, divisor: Span, wanted: Span) -> Span
    ensures { KeepsLeft remainder_of span divisor wanted result }
{
    let cut = by_sign(span, divisor, wanted);
    if divisor.low < divisor.high {
        return cut;
    }
    by_point(cut, divisor.low, wanted)
}

// The divisors, each farther from 0 than the remainder.
fn divisor(dividend: Span, span: Span, wanted: Span) -> Span
    ensures { KeepsRight remainder_of dividend span wanted result }
{
    division_rounds_towards_zero();
    let cut = other_than(0, span);
    if wanted.low <= 0 {
        return cut;
    }
    if cut.low >= 0 {
        return above(i128::from(wanted.low), cut);
    }
    if cut.high <= 0 {
        return below(minus(0, wanted.low), cut);
    }
    cut
}

/// `left % right`
pub fn remainder(spans: Operands, wanted: Span) -> Operands
    ensures { KeepOperands remainder_of spans wanted result }
{
    Operands {
        left: dividend(spans.left, spans.right, wanted),
        right: divisor(spans.left, spans.right, wanted),
    }
}
