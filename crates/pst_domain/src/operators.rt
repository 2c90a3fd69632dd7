// Spans of operators.
ghost use Rattle.std.specs.Prelude.{◌≡◌, Some, None, Option, IsTrue};
ghost use Rattle.pst_expr.specs.declared.ranges.Span.{Span};
ghost use Rattle.pst_domain.specs.Truth.{truth_of_span, and_truth, or_truth, implies_truth};
ghost use Rattle.pst_domain.specs.Interval.{unary_span, binary_span};

use crate::truth::Truth;
use crate::{arithmetic, bits, comparison, shifts};
use pst_expr::{BinaryOp, Span, UnaryOp};

/// The span of an operator with its operand.
pub fn unary(op: UnaryOp, operand: Span) -> Option<Span>
    ensures { result ≡ unary_span op operand }
{
    match op {
        UnaryOp::Neg => arithmetic::negation(operand),
        UnaryOp::Not => Some(Truth::of(operand).negated().span()),
        UnaryOp::BitNot => arithmetic::inverse(operand),
    }
}

// `left && right`
fn and(left: Truth, right: Option<Truth>) -> Option<Truth>
    ensures { result ≡ and_truth (Some left) right }
{
    match (left, right) {
        (Truth::False, _) => Some(Truth::False),
        (Truth::True, _) => right,
        (Truth::Either, None) => Some(Truth::False),
        (Truth::Either, Some(Truth::False)) => Some(Truth::False),
        (Truth::Either, Some(_)) => Some(Truth::Either),
    }
}

// `left || right`
fn or(left: Truth, right: Option<Truth>) -> Option<Truth>
    ensures { result ≡ or_truth (Some left) right }
{
    match (left, right) {
        (Truth::False, _) => right,
        (Truth::True, _) => Some(Truth::True),
        (Truth::Either, None) => Some(Truth::True),
        (Truth::Either, Some(Truth::True)) => Some(Truth::True),
        (Truth::Either, Some(_)) => Some(Truth::Either),
    }
}

// `left -> right`
fn implies(left: Truth, right: Option<Truth>) -> Option<Truth>
    ensures { result ≡ implies_truth (Some left) right }
{
    match (left, right) {
        (Truth::False, _) => Some(Truth::True),
        (Truth::True, _) => right,
        (Truth::Either, None) => Some(Truth::True),
        (Truth::Either, Some(Truth::True)) => Some(Truth::True),
        (Truth::Either, Some(_)) => Some(Truth::Either),
    }
}

/// Whether a span of the left operand of a logical operator says what the operator gives, without the right operand.
pub fn is_decided_by_left(op: BinaryOp, left: Span) -> bool
    ensures { IsTrue result → (right : Option Span) → binary_span op (Some left) right ≡ binary_span op (Some left) None }
{
    match op {
        BinaryOp::And | BinaryOp::Implies => Truth::of(left) == Truth::False,
        BinaryOp::Or => Truth::of(left) == Truth::True,
        _ => false,
    }
}

/// The span of an operator with both operands, where the left one has a span.
pub fn binary(op: BinaryOp, left: Span, right: Option<Span>) -> Option<Span>
    ensures { result ≡ binary_span op (Some left) right }
{
    match op {
        BinaryOp::Mul => arithmetic::product(left, right?),
        BinaryOp::Div => arithmetic::quotient(left, right?),
        BinaryOp::Rem => arithmetic::remainder(left, right?),
        BinaryOp::Add => arithmetic::sum(left, right?),
        BinaryOp::Sub => arithmetic::difference(left, right?),
        BinaryOp::Shl => shifts::shift_left(left, right?),
        BinaryOp::Shr => shifts::shift_right(left, right?),
        BinaryOp::Less => Some(comparison::less(left, right?).span()),
        BinaryOp::LessOrEqual => Some(comparison::less_or_equal(left, right?).span()),
        BinaryOp::Greater => Some(comparison::less(right?, left).span()),
        BinaryOp::GreaterOrEqual => Some(comparison::less_or_equal(right?, left).span()),
        BinaryOp::Equal => Some(comparison::equal(left, right?).span()),
        BinaryOp::NotEqual => Some(comparison::equal(left, right?).negated().span()),
        BinaryOp::BitAnd => bits::and(left, right?),
        BinaryOp::BitXor => bits::xor(left, right?),
        BinaryOp::BitOr => bits::or(left, right?),
        BinaryOp::And => and(Truth::of(left), right.map(Truth::of)).map(Truth::span),
        BinaryOp::Or => or(Truth::of(left), right.map(Truth::of)).map(Truth::span),
        BinaryOp::Implies => implies(Truth::of(left), right.map(Truth::of)).map(Truth::span),
    }
}
