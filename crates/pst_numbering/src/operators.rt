//! The operators of expressions.
ghost use Rattle.std.specs.Prelude.{◌≡◌};
ghost use Rattle.pst_type_rules.specs.Values.{binary_of, unary_of};

use pst_ast::{Operator, PrefixOperator};
use pst_expr::{BinaryOp, UnaryOp};

/// The operator before a part.
pub fn unary_op(operator: PrefixOperator) -> UnaryOp
    ensures { result ≡ unary_of operator }
{
    match operator {
        PrefixOperator::Negate => UnaryOp::Neg,
        PrefixOperator::Not => UnaryOp::Not,
        PrefixOperator::Complement => UnaryOp::BitNot,
    }
}

/// The operator between two parts.
pub fn binary_op(operator: Operator) -> BinaryOp
    ensures { result ≡ binary_of operator }
{
    match operator {
        Operator::Multiply => BinaryOp::Mul,
        Operator::Divide => BinaryOp::Div,
        Operator::Remainder => BinaryOp::Rem,
        Operator::Add => BinaryOp::Add,
        Operator::Subtract => BinaryOp::Sub,
        Operator::ShiftLeft => BinaryOp::Shl,
        Operator::ShiftRight => BinaryOp::Shr,
        Operator::Less => BinaryOp::Less,
        Operator::LessEqual => BinaryOp::LessOrEqual,
        Operator::Greater => BinaryOp::Greater,
        Operator::GreaterEqual => BinaryOp::GreaterOrEqual,
        Operator::Equal => BinaryOp::Equal,
        Operator::NotEqual => BinaryOp::NotEqual,
        Operator::BitAnd => BinaryOp::BitAnd,
        Operator::BitXor => BinaryOp::BitXor,
        Operator::BitOr => BinaryOp::BitOr,
        Operator::And => BinaryOp::And,
        Operator::Or => BinaryOp::Or,
    }
}
