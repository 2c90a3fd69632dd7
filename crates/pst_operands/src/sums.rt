// The operands of a sum and of a difference.
ghost use Rattle.pst_num.specs.Arithmetic.{sum_of, difference_of};
ghost use Rattle.pst_operands.specs.Operands.{KeepOperands};

use crate::cuts::{at_least, at_most};
use crate::exact::{minus, plus};
use crate::operands::Operands;
use pst_expr::Span;

/// `left + right`
pub fn sum(spans: Operands, wanted: Span) -> Operands
    ensures { KeepOperands sum_of spans wanted result }
{
    let Operands { left, right } = spans;
    let left_low = minus(wanted.low, right.high);
    let left_high = minus(wanted.high, right.low);
    let right_low = minus(wanted.low, left.high);
    let right_high = minus(wanted.high, left.low);
    Operands {
        left: at_most(left_high, at_least(left_low, left)),
        right: at_most(right_high, at_least(right_low, right)),
    }
}

/// `left - right`
pub fn difference(spans: Operands, wanted: Span) -> Operands
    ensures { KeepOperands difference_of spans wanted result }
{
    let Operands { left, right } = spans;
    let left_low = plus(wanted.low, right.low);
    let left_high = plus(wanted.high, right.high);
    let right_low = minus(left.low, wanted.high);
    let right_high = minus(left.high, wanted.low);
    Operands {
        left: at_most(left_high, at_least(left_low, left)),
        right: at_most(right_high, at_least(right_low, right)),
    }
}
