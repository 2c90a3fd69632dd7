// The operands of each operator.
ghost use Rattle.pst_expr.specs.Value.{unary_value};
ghost use Rattle.pst_operands.specs.Keeps.{KeepsOperand};
ghost use Rattle.pst_operands.specs.Operands.{KeepOperands, applied};

use crate::{bits, comparison, product, quotient, remainder, shifts, sums, unary};
use pst_expr::{BinaryOp, Span, UnaryOp};

/// The spans of a left and a right operand.
#[derive(Clone, Copy, Debug, PartialEq, Eq)]
pub struct Operands {
    /// Where the left operand lies.
    pub left: Span,
    /// Where the right operand lies.
    pub right: Span,
}

/// The operands, of those in two spans, for which the value of an operator may lie in `wanted`.
///
/// A span without a number comes back reversed. The logical operators cut nothing: they may have a value where their
/// right operand has none.
pub fn operands_of(op: BinaryOp, spans: Operands, wanted: Span) -> Operands
    ensures { KeepOperands (applied op) spans wanted result }
{
    match op {
        BinaryOp::Mul => product::product(spans, wanted),
        BinaryOp::Div => quotient::quotient(spans, wanted),
        BinaryOp::Rem => remainder::remainder(spans, wanted),
        BinaryOp::Add => sums::sum(spans, wanted),
        BinaryOp::Sub => sums::difference(spans, wanted),
        BinaryOp::Shl => shifts::shift_left(spans, wanted),
        BinaryOp::Shr => shifts::shift_right(spans, wanted),
        BinaryOp::Less => comparison::less(spans, wanted),
        BinaryOp::LessOrEqual => comparison::less_or_equal(spans, wanted),
        BinaryOp::Greater => comparison::greater(spans, wanted),
        BinaryOp::GreaterOrEqual => comparison::greater_or_equal(spans, wanted),
        BinaryOp::Equal => comparison::equal(spans, wanted),
        BinaryOp::NotEqual => comparison::not_equal(spans, wanted),
        BinaryOp::BitAnd => bits::and(spans, wanted),
        BinaryOp::BitXor => bits::xor(spans, wanted),
        BinaryOp::BitOr => bits::or(spans, wanted),
        BinaryOp::And => spans,
        BinaryOp::Or => spans,
        BinaryOp::Implies => spans,
    }
}

/// The operands, of those in a span, for which the value of an operator may lie in `wanted`.
///
/// A span without a number comes back reversed.
pub fn operand_of(op: UnaryOp, span: Span, wanted: Span) -> Span
    ensures { KeepsOperand (unary_value op) span wanted result }
{
    match op {
        UnaryOp::Neg => unary::negation(span, wanted),
        UnaryOp::Not => unary::not(span, wanted),
        UnaryOp::BitNot => unary::inverse(span, wanted),
    }
}
