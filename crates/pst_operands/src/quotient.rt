// The operands of a quotient.
ghost use Rattle.std.specs.Prelude.{pos, ◌<ℤ◌};
ghost use Rattle.pst_num.specs.Arithmetic.{quotient_of};
ghost use Rattle.pst_operands.specs.Keeps.{KeepsLeft};
ghost use Rattle.pst_operands.specs.Operands.{KeepOperands};

use crate::cuts::{above, at_least, at_most, below, is_negative, is_positive, other_than};
use crate::exact::times;
use crate::operands::Operands;
use pst_expr::Span;
use pst_num::{add, division_rounds_towards_zero, sub};

// The dividends that aren't too high, with a positive divisor.
fn high_by_positive(span: Span, divisor: Span, wanted: Span) -> Span
    requires { pos 0 <ℤ divisor.low }
    ensures { KeepsLeft quotient_of span divisor wanted result }
{
    division_rounds_towards_zero();
    if wanted.high < 0 {
        return at_most(times(wanted.high, divisor.low), span);
    }
    match add(wanted.high, 1) {
        Some(next) => below(times(next, divisor.high), span),
        None => span,
    }
}

// The dividends that aren't too low, with a positive divisor.
fn low_by_positive(span: Span, divisor: Span, wanted: Span) -> Span
    requires { pos 0 <ℤ divisor.low }
    ensures { KeepsLeft quotient_of span divisor wanted result }
{
    division_rounds_towards_zero();
    if wanted.low > 0 {
        return at_least(times(wanted.low, divisor.low), span);
    }
    match sub(wanted.low, 1) {
        Some(next) => above(times(next, divisor.high), span),
        None => span,
    }
}

// The dividends that aren't too high, with a negative divisor.
fn high_by_negative(span: Span, divisor: Span, wanted: Span) -> Span
    requires { divisor.high <ℤ pos 0 }
    ensures { KeepsLeft quotient_of span divisor wanted result }
{
    division_rounds_towards_zero();
    if wanted.low > 0 {
        return at_most(times(wanted.low, divisor.high), span);
    }
    match sub(wanted.low, 1) {
        Some(next) => below(times(next, divisor.low), span),
        None => span,
    }
}

// The dividends that aren't too low, with a negative divisor.
fn low_by_negative(span: Span, divisor: Span, wanted: Span) -> Span
    requires { divisor.high <ℤ pos 0 }
    ensures { KeepsLeft quotient_of span divisor wanted result }
{
    division_rounds_towards_zero();
    if wanted.high < 0 {
        return at_least(times(wanted.high, divisor.high), span);
    }
    match add(wanted.high, 1) {
        Some(next) => above(times(next, divisor.low), span),
        None => span,
    }
}

// The dividends.
fn dividend(span: Span, divisor: Span, wanted: Span) -> Span
    ensures { KeepsLeft quotient_of span divisor wanted result }
{
    if is_positive(divisor) {
        let low = low_by_positive(span, divisor, wanted);
        return high_by_positive(low, divisor, wanted);
    }
    if is_negative(divisor) {
        let low = low_by_negative(span, divisor, wanted);
        return high_by_negative(low, divisor, wanted);
    }
    span
}

/// `left / right`
pub fn quotient(spans: Operands, wanted: Span) -> Operands
    ensures { KeepOperands quotient_of spans wanted result }
{
    let right = other_than(0, spans.right);
    Operands {
        left: dividend(spans.left, right, wanted),
        right,
    }
}
