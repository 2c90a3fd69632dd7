//! Expressions as texts in which each operator stands behind its operands.
ghost use Rattle.std.specs.Prelude.{◌≡◌, ℕ, ◌+◌, ◌<◌, true};
ghost use Rattle.pst_expr.specs.Tree.{view};
ghost use Rattle.pst_domain.specs.Bounds.{HasVariablesBelow};

use pst_base::NoMemory;
use pst_expr::{BinaryOp, Expr, UnaryOp};
use std::alloc::Global;

// The operator of a sign between two numbers.
fn number_operator(sign: &str) -> Option<BinaryOp> {
    match sign {
        "*" => Some(BinaryOp::Mul),
        "/" => Some(BinaryOp::Div),
        "%" => Some(BinaryOp::Rem),
        "+" => Some(BinaryOp::Add),
        "-" => Some(BinaryOp::Sub),
        "<<" => Some(BinaryOp::Shl),
        ">>" => Some(BinaryOp::Shr),
        "&" => Some(BinaryOp::BitAnd),
        "^" => Some(BinaryOp::BitXor),
        "|" => Some(BinaryOp::BitOr),
        _ => None,
    }
}

// The operator of a sign between two operands.
fn binary_operator(sign: &str) -> Option<BinaryOp> {
    match sign {
        "<" => Some(BinaryOp::Less),
        "<=" => Some(BinaryOp::LessOrEqual),
        ">" => Some(BinaryOp::Greater),
        ">=" => Some(BinaryOp::GreaterOrEqual),
        "==" => Some(BinaryOp::Equal),
        "!=" => Some(BinaryOp::NotEqual),
        "&&" => Some(BinaryOp::And),
        "||" => Some(BinaryOp::Or),
        "->" => Some(BinaryOp::Implies),
        _ => number_operator(sign),
    }
}

// The operator of a sign before one operand.
fn unary_operator(sign: &str) -> Option<UnaryOp> {
    match sign {
        "neg" => Some(UnaryOp::Neg),
        "!" => Some(UnaryOp::Not),
        "~" => Some(UnaryOp::BitNot),
        _ => None,
    }
}

// The last of the expressions that no operator has taken yet.
fn last(stack: &mut Vec<Expr>) -> Expr {
    match stack.pop() {
        Some(expr) => expr,
        None => Expr::Constant(0),
    }
}

fn join_one(alloc: Global, stack: &mut Vec<Expr>, op: UnaryOp) -> Result<(), NoMemory> {
    let operand = Box::new(alloc, last(stack))?;
    stack.push(Expr::Unary(op, operand))?;
    Ok(())
}

fn join_two(alloc: Global, stack: &mut Vec<Expr>, op: BinaryOp) -> Result<(), NoMemory> {
    let right = Box::new(alloc, last(stack))?;
    let left = Box::new(alloc, last(stack))?;
    stack.push(Expr::Binary(op, left, right))?;
    Ok(())
}

// The element of an array, by its first variable and the number of its elements, whose index is the last expression.
fn element(alloc: Global, stack: &mut Vec<Expr>, array: &str) -> Result<(), NoMemory> {
    let (first, count) = array.split_once(':').unwrap_or((array, ""));
    let first = first.parse::<u32>().unwrap_or(0);
    let count = count.parse::<u32>().unwrap_or(0);
    let index = Box::new(alloc, last(stack))?;
    stack.push(Expr::Element(first, count, index))?;
    Ok(())
}

// A variable, or a number.
fn leaf(word: &str) -> Expr {
    match word.strip_prefix("x") {
        Some(number) => Expr::Variable(number.parse::<u32>().unwrap_or(u32::MAX)),
        None => Expr::Constant(word.parse::<i64>().unwrap_or(0)),
    }
}

// Takes a word: an operator takes its operands from the stack, and what it makes goes there.
fn take(alloc: Global, stack: &mut Vec<Expr>, word: &str) -> Result<(), NoMemory> {
    if let Some(op) = binary_operator(word) {
        return join_two(alloc, stack, op);
    }
    if let Some(op) = unary_operator(word) {
        return join_one(alloc, stack, op);
    }
    if let Some(array) = word.strip_prefix("a") {
        return element(alloc, stack, array);
    }
    stack.push(leaf(word))?;
    Ok(())
}

/// Reads an expression: numbers, variables as `x0`, operators behind their operands, and `a1:3`, the element of the
/// array of three variables from 1 on whose index stands before it.
pub fn read_postfix(alloc: Global, text: &str) -> Result<Expr, NoMemory> {
    let mut stack = Vec::new(alloc);
    for word in text.split_whitespace() {
        take(alloc, &mut stack, word)?;
    }
    Ok(last(&mut stack))
}

// Whether the elements of an array are below a number.
fn is_array_below(first: u32, size: u32, count: u32) -> bool
    ensures { result ≡ true → (i : ℕ) → i < size → first + i < count }
{
    u64::from(first) + u64::from(size) <= u64::from(count)
}

/// Whether the variables of an expression are below a number.
pub fn are_below(expr: &Expr, count: u32) -> bool
    ensures { result ≡ true → HasVariablesBelow count (view expr.now) }
{
    match expr {
        Expr::Constant(_) => true,
        Expr::Variable(variable) => *variable < count,
        Expr::Unary(_, operand) => are_below(operand, count),
        Expr::Binary(_, left, right) => are_below(left, count) && are_below(right, count),
        Expr::Element(first, size, index) => {
            is_array_below(*first, *size, count) && are_below(index, count)
        }
    }
}
