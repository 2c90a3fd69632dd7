// What the operators give.
ghost use Rattle.std.specs.Prelude.{◌≡◌, IsTrue, ◌↔◌};
ghost use Rattle.pst_expr.specs.Value.{unary_value, binary_value, decided_by_left, number_of};

use crate::tree::{BinaryOp, UnaryOp};

// 1 for true and 0 for false.
fn truth(holds: bool) -> Option<i64>
    ensures { result ≡ Some (number_of holds) }
{
    Some(i64::from(holds))
}

/// The value of an operator with its operand.
pub fn unary(op: UnaryOp, operand: i64) -> Option<i64>
    ensures { result ≡ unary_value op operand }
{
    match op {
        UnaryOp::Neg => pst_num::neg(operand),
        UnaryOp::Not => truth(operand == 0),
        UnaryOp::BitNot => pst_num::not(operand),
    }
}

/// What a logical operator gives whatever its right operand is; `None` where it depends on it.
pub fn decided_by_left(op: BinaryOp, left: i64) -> Option<i64>
    ensures { result ≡ decided_by_left op left }
{
    match op {
        BinaryOp::And if left == 0 => Some(0),
        BinaryOp::Or if left != 0 => Some(1),
        BinaryOp::Implies if left == 0 => Some(1),
        _ => None,
    }
}

/// The value of an operator with both operands, where the left one doesn't decide.
pub fn binary(op: BinaryOp, left: i64, right: i64) -> Option<i64>
    requires { decided_by_left op left ≡ None }
    ensures { result ≡ binary_value op (Some left) (Some right) }
{
    match op {
        BinaryOp::Mul => pst_num::mul(left, right),
        BinaryOp::Div => pst_num::div(left, right),
        BinaryOp::Rem => pst_num::rem(left, right),
        BinaryOp::Add => pst_num::add(left, right),
        BinaryOp::Sub => pst_num::sub(left, right),
        BinaryOp::Shl => pst_num::shl(left, right),
        BinaryOp::Shr => pst_num::shr(left, right),
        BinaryOp::Less => truth(left < right),
        BinaryOp::LessOrEqual => truth(left <= right),
        BinaryOp::Greater => truth(left > right),
        BinaryOp::GreaterOrEqual => truth(left >= right),
        BinaryOp::Equal => truth(left == right),
        BinaryOp::NotEqual => truth(left != right),
        BinaryOp::BitAnd => pst_num::and(left, right),
        BinaryOp::BitXor => pst_num::xor(left, right),
        BinaryOp::BitOr => pst_num::or(left, right),
        BinaryOp::And | BinaryOp::Or | BinaryOp::Implies => truth(right != 0),
    }
}
