//! What evaluating comes to.
ghost use Rattle.std.specs.Prelude.{◌≡◌};
ghost use Rattle.std.specs.Option.{option_and_then};
ghost use Rattle.pst_expr.specs.Value.{binary_value, unary_value};
ghost use Rattle.pst_evaluate.specs.Evaluated.{value_in};

use pst_expr::{BinaryOp, UnaryOp, binary, decided_by_left, unary};

/// What evaluating an expression comes to, while some items have values.
#[derive(Clone, Copy, PartialEq, Eq)]
pub enum Evaluated {
    /// A value.
    Value(i64),
    /// None so far: the item of that number is needed, and has no value.
    Lacks(usize),
    /// None.
    Nothing,
}

/// A value, where there is one.
pub fn value_or_nothing(value: Option<i64>) -> Evaluated
    ensures { value_in result ≡ value }
{
    match value {
        Some(value) => Evaluated::Value(value),
        None => Evaluated::Nothing,
    }
}

/// The value of an operator with its operand.
pub fn evaluated_unary(op: UnaryOp, operand: Evaluated) -> Evaluated
    ensures { value_in result ≡ option_and_then (unary_value op) (value_in operand) }
{
    match operand {
        Evaluated::Value(value) => value_or_nothing(unary(op, value)),
        Evaluated::Lacks(item) => Evaluated::Lacks(item),
        Evaluated::Nothing => Evaluated::Nothing,
    }
}

// The value of an operator whose left operand doesn't decide.
fn with_right(op: BinaryOp, left: i64, right: Evaluated) -> Evaluated
    requires { Rattle.pst_expr.specs.Value.decided_by_left op left ≡ None }
    ensures { value_in result ≡ binary_value op (Some left) (value_in right) }
{
    match right {
        Evaluated::Value(right) => value_or_nothing(binary(op, left, right)),
        Evaluated::Lacks(item) => Evaluated::Lacks(item),
        Evaluated::Nothing => Evaluated::Nothing,
    }
}

/// The value of an operator with its operands.
pub fn evaluated_binary(op: BinaryOp, left: Evaluated, right: Evaluated) -> Evaluated
    ensures { value_in result ≡ binary_value op (value_in left) (value_in right) }
{
    match left {
        Evaluated::Value(left) => match decided_by_left(op, left) {
            Some(value) => Evaluated::Value(value),
            None => with_right(op, left, right),
        },
        Evaluated::Lacks(item) => Evaluated::Lacks(item),
        Evaluated::Nothing => Evaluated::Nothing,
    }
}
