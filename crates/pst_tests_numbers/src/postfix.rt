//! Expressions as texts in which each operator stands behind its operands.
ghost use Rattle.std.specs.Prelude.{◌≤◌};
ghost use Rattle.pst_expr.specs.Tree.{view};
ghost use Rattle.pst_domain.specs.Bounds.{HasVariablesBelow};
ghost use Rattle.pst_tests_numbers.specs.Narrow.{below-prop};

use pst_expr::{BinaryOp, Expr, UnaryOp};
use std::alloc::{AllocError, Global};

/// An expression with variables 0 to 3 alone.
#[derive(Drop)]
pub struct Narrow {
    /// The expression.
    pub expr: Expr,
    ghost few: { HasVariablesBelow 4 (view expr) } by { below-prop 4 (view expr) },
}

/// The operator of a sign between two operands.
fn binary_of(sign: &str) -> Option<BinaryOp> {
    match sign {
        "*" => Some(BinaryOp::Mul),
        "/" => Some(BinaryOp::Div),
        "%" => Some(BinaryOp::Rem),
        "+" => Some(BinaryOp::Add),
        "-" => Some(BinaryOp::Sub),
        "<<" => Some(BinaryOp::Shl),
        ">>" => Some(BinaryOp::Shr),
        "<" => Some(BinaryOp::Less),
        "<=" => Some(BinaryOp::LessOrEqual),
        ">" => Some(BinaryOp::Greater),
        ">=" => Some(BinaryOp::GreaterOrEqual),
        "==" => Some(BinaryOp::Equal),
        "!=" => Some(BinaryOp::NotEqual),
        "&" => Some(BinaryOp::BitAnd),
        "^" => Some(BinaryOp::BitXor),
        "|" => Some(BinaryOp::BitOr),
        "&&" => Some(BinaryOp::And),
        "||" => Some(BinaryOp::Or),
        "->" => Some(BinaryOp::Implies),
        _ => None,
    }
}

/// The operator of a word before one operand.
fn unary_of(word: &str) -> Option<UnaryOp> {
    match word {
        "neg" => Some(UnaryOp::Neg),
        "!" => Some(UnaryOp::Not),
        "~" => Some(UnaryOp::BitNot),
        _ => None,
    }
}

// An operator with two operands.
fn binary(alloc: Global, op: BinaryOp, left: Narrow, right: Narrow) -> Result<Narrow, AllocError> {
    let Narrow { expr: left } = left;
    let Narrow { expr: right } = right;
    let left = Box::new(alloc, left)?;
    let right = Box::new(alloc, right)?;
    Ok(Narrow {
        expr: Expr::Binary(op, left, right),
    })
}

// An operator with one operand.
fn unary(alloc: Global, op: UnaryOp, operand: Narrow) -> Result<Narrow, AllocError> {
    let Narrow { expr: operand } = operand;
    Ok(Narrow {
        expr: Expr::Unary(op, Box::new(alloc, operand)?),
    })
}

// An element of the array of variables 0 to 2, or of 1 to 3, or of variable 0 alone.
fn element(alloc: Global, word: &str, index: Narrow) -> Result<Narrow, AllocError> {
    let Narrow { expr: index } = index;
    let index = Box::new(alloc, index)?;
    let expr = match word {
        "a0:1" => Expr::Element(0, 1, index),
        "a0:3" => Expr::Element(0, 3, index),
        _ => Expr::Element(1, 3, index),
    };
    Ok(Narrow { expr })
}

// A variable or a number.
fn leaf(word: &str) -> Narrow {
    let expr = match word {
        "x" => Expr::Variable(0),
        "y" => Expr::Variable(1),
        "z" => Expr::Variable(2),
        _ => Expr::Constant(word.parse::<i64>().unwrap_or(0)),
    };
    Narrow { expr }
}

// Takes a word: an operator takes its operands from the stack, and what it makes goes there.
fn take(alloc: Global, stack: &mut Vec<Narrow>, word: &str) -> Result<(), AllocError> {
    let made = if let Some(op) = binary_of(word) {
        let (Some(right), Some(left)) = (stack.pop(), stack.pop()) else {
            return Ok(());
        };
        binary(alloc, op, left, right)?
    } else if let Some(op) = unary_of(word) {
        let Some(operand) = stack.pop() else {
            return Ok(());
        };
        unary(alloc, op, operand)?
    } else if word.starts_with("a") {
        let Some(index) = stack.pop() else {
            return Ok(());
        };
        element(alloc, word, index)?
    } else {
        leaf(word)
    };
    stack.push(made)?;
    Ok(())
}

/// Reads an expression: numbers, the variables `x`, `y` and `z`, operators behind their operands, and
/// `a1:3`, the element of the array of three variables from 1 on whose index stands before it.
pub fn read_postfix(alloc: Global, text: &str) -> Result<Option<Narrow>, AllocError> {
    let mut stack = Vec::new(alloc);
    for word in text.split_whitespace() {
        take(alloc, &mut stack, word)?;
    }
    Ok(stack.pop())
}
