// The operand of an operator with one.
ghost use Rattle.std.specs.Prelude.{Some};
ghost use Rattle.pst_num.specs.Arithmetic.{negation_of};
ghost use Rattle.pst_num.specs.Bits.{bits_not};
ghost use Rattle.pst_expr.specs.Value.{number_of, is_false};
ghost use Rattle.pst_operands.specs.Keeps.{KeepsOperand};

use crate::cuts::{at_least, at_most, common, lacks, other_than};
use crate::exact::minus;
use pst_expr::Span;

/// `-operand`
pub fn negation(span: Span, wanted: Span) -> Span
    ensures { KeepsOperand negation_of span wanted result }
{
    let low = minus(0, wanted.high);
    let high = minus(0, wanted.low);
    at_most(high, at_least(low, span))
}

/// `~operand`, which is -1 less the operand.
pub fn inverse(span: Span, wanted: Span) -> Span
    ensures { KeepsOperand bits_not span wanted result }
{
    let low = minus(-1, wanted.high);
    let high = minus(-1, wanted.low);
    at_most(high, at_least(low, span))
}

/// `!operand`
pub fn not(span: Span, wanted: Span) -> Span
    ensures { KeepsOperand (λ x. Some (number_of (is_false x))) span wanted result }
{
    if lacks(wanted, 0) {
        common(span, Span { low: 0, high: 0 })
    } else if lacks(wanted, 1) {
        other_than(0, span)
    } else {
        span
    }
}
