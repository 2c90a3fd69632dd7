// The operands of shifts.
ghost use Rattle.std.specs.Prelude.{ℤ, pos, ◌+ℤ◌, ◌*ℤ◌, ◌≤ℤ◌, ◌<ℤ◌, IfSome};
ghost use Rattle.pst_num.specs.Shifts.{shifted_left, shifted_right};
ghost use Rattle.pst_expr.specs.Spans.{IsInSpan};
ghost use Rattle.pst_operands.specs.Keeps.{KeepsLeft};
ghost use Rattle.pst_operands.specs.Operands.{KeepOperands};
ghost use Rattle.pst_operands.specs.Powers.{HasPowers};

use crate::cuts::{at_least, below, common};
use crate::exact::times;
use crate::operands::Operands;
use crate::product::by_signed;
use pst_expr::Span;
use pst_num::{add, shifts_round_down, shl};

// The counts of a shift.
const COUNTS: Span = Span { low: 0, high: 63 };

// The powers of 2 with the ends of a span as exponents, where both are values.
fn powers(counts: Span) -> Option<Span>
    ensures { IfSome result (λ powers. HasPowers counts powers) }
{
    let low = shl(1, counts.low)?;
    let high = shl(1, counts.high)?;
    Some(Span { low, high })
}

// The numbers that are shifted to the left.
fn shifted_to_left(span: Span, counts: Span, wanted: Span) -> Span
    ensures { KeepsLeft shifted_left span counts wanted result }
{
    match powers(counts) {
        Some(powers) => by_signed(span, powers, wanted),
        None => span,
    }
}

// The numbers that are shifted to the right and aren't too low.
fn low_to_right(span: Span, powers: Span, wanted: Span) -> Span
    ensures { (x z p : ℤ) → IsInSpan x span → IsInSpan p powers → IsInSpan z wanted → pos 0 ≤ℤ p → (z *ℤ p) ≤ℤ x → IsInSpan x result }
{
    if wanted.low < 0 {
        at_least(times(wanted.low, powers.high), span)
    } else {
        at_least(times(wanted.low, powers.low), span)
    }
}

// The numbers that are shifted to the right and aren't too high.
fn high_to_right(span: Span, powers: Span, wanted: Span) -> Span
    ensures { (x z p : ℤ) → IsInSpan x span → IsInSpan p powers → IsInSpan z wanted → pos 0 ≤ℤ p → x <ℤ ((z +ℤ pos 1) *ℤ p) → IsInSpan x result }
{
    match add(wanted.high, 1) {
        Some(next) => {
            if next < 0 {
                below(times(next, powers.low), span)
            } else {
                below(times(next, powers.high), span)
            }
        }
        None => span,
    }
}

// The numbers that are shifted to the right.
fn shifted_to_right(span: Span, counts: Span, wanted: Span) -> Span
    ensures { KeepsLeft shifted_right span counts wanted result }
{
    shifts_round_down();
    match powers(counts) {
        Some(powers) => high_to_right(low_to_right(span, powers, wanted), powers, wanted),
        None => span,
    }
}

/// `left << right`
pub fn shift_left(spans: Operands, wanted: Span) -> Operands
    ensures { KeepOperands shifted_left spans wanted result }
{
    let right = common(spans.right, COUNTS);
    Operands {
        left: shifted_to_left(spans.left, right, wanted),
        right,
    }
}

/// `left >> right`
pub fn shift_right(spans: Operands, wanted: Span) -> Operands
    ensures { KeepOperands shifted_right spans wanted result }
{
    let right = common(spans.right, COUNTS);
    Operands {
        left: shifted_to_right(spans.left, right, wanted),
        right,
    }
}
