//! Bodies that are written as numbers.
use pst_base::NoMemory;
use pst_expr::{BinaryOp, Expr, Span};
use pst_model::{BodyStep, Constraint, Slot, Source};
use std::alloc::Global;

/// What is left to read of a list of numbers.
#[derive(Clone, Copy)]
pub struct Numbers<'a> {
    pub left: &'a [i64],
}

impl Numbers<'_> {
    /// The next number, 0 where none is left.
    pub fn next(&mut self) -> i64 {
        match self.left.split_first() {
            Some((first, rest)) => {
                self.left = rest;
                *first
            }
            None => 0,
        }
    }

    /// The next number, as one of 32 bits.
    pub fn index(&mut self) -> u32 {
        u32::try_from(self.next()).unwrap_or(0)
    }
}

// A variable that stands for the slot.
fn variable(slots: &mut Vec<Slot>, slot: Slot) -> Result<Expr, NoMemory> {
    let number = u32::try_from(slots.len()).unwrap_or(0);
    slots.push(slot)?;
    Ok(Expr::Variable(number))
}

fn operator(code: i64) -> BinaryOp {
    match code {
        4 => BinaryOp::Add,
        5 => BinaryOp::Sub,
        6 => BinaryOp::Mul,
        7 => BinaryOp::Div,
        8 => BinaryOp::And,
        _ => BinaryOp::Less,
    }
}

// 0 and a number; 1 and a local; 2 and the level of an index; 3 and a field of the action; an operator and two parts.
fn read_expression(
    alloc: Global,
    numbers: &mut Numbers<'_>,
    slots: &mut Vec<Slot>,
    depth: u32,
) -> Result<Expr, NoMemory> {
    if depth == 0 {
        return Ok(Expr::Constant(0));
    }
    match numbers.next() {
        0 => Ok(Expr::Constant(numbers.next())),
        1 => {
            let local = numbers.index();
            variable(slots, Slot::Local { local })
        }
        2 => {
            let level = numbers.index();
            variable(slots, Slot::Index { level })
        }
        3 => {
            let field = numbers.index();
            variable(slots, Slot::Own { field })
        }
        code => {
            let left = Box::new(alloc, read_expression(alloc, numbers, slots, depth - 1)?)?;
            let right = Box::new(alloc, read_expression(alloc, numbers, slots, depth - 1)?)?;
            Ok(Expr::Binary(operator(code), left, right))
        }
    }
}

fn read_constraint(alloc: Global, numbers: &mut Numbers<'_>) -> Result<Constraint, NoMemory> {
    let mut slots = Vec::new(alloc);
    let expr = read_expression(alloc, numbers, &mut slots, 8)?;
    Ok(Constraint { expr, slots })
}

// How many there are, and each.
fn read_arguments(alloc: Global, numbers: &mut Numbers<'_>) -> Result<Vec<Constraint>, NoMemory> {
    let mut arguments = Vec::new(alloc);
    for _ in 0..numbers.index() {
        arguments.push(read_constraint(alloc, numbers)?)?;
    }
    Ok(arguments)
}

// 0 and an expression, or 1, a function and its arguments.
fn read_source(alloc: Global, numbers: &mut Numbers<'_>) -> Result<Source, NoMemory> {
    if numbers.next() == 0 {
        return Ok(Source::Value(read_constraint(alloc, numbers)?));
    }
    let function = numbers.index();
    let arguments = read_arguments(alloc, numbers)?;
    Ok(Source::Answer {
        function,
        arguments,
    })
}

// 0, a local, its range, and 0 or 1 and its value; 1, a local and its value; 2, a function and its arguments; 3, a condition
// and the steps where it holds and where it doesn't; 4, a count and what is repeated.
#[cycle(steps)]
fn read_step(alloc: Global, numbers: &mut Numbers<'_>, depth: u32) -> Result<BodyStep, NoMemory> {
    match numbers.next() {
        0 => {
            let local = numbers.index();
            let low = numbers.next();
            let high = numbers.next();
            let range = Span { low, high };
            let has_value = numbers.next() != 0;
            let value = if has_value {
                Some(read_source(alloc, numbers)?)
            } else {
                None
            };
            Ok(BodyStep::Declare {
                local,
                range,
                value,
            })
        }
        1 => {
            let local = numbers.index();
            let value = read_source(alloc, numbers)?;
            Ok(BodyStep::Assign { local, value })
        }
        2 => {
            let function = numbers.index();
            let arguments = read_arguments(alloc, numbers)?;
            Ok(BodyStep::Call {
                function,
                arguments,
            })
        }
        3 => {
            let condition = read_constraint(alloc, numbers)?;
            let yes = read_steps(alloc, numbers, depth)?;
            let no = read_steps(alloc, numbers, depth)?;
            Ok(BodyStep::If { condition, yes, no })
        }
        _ => {
            let count = read_constraint(alloc, numbers)?;
            let body = read_steps(alloc, numbers, depth)?;
            Ok(BodyStep::Repeat { count, body })
        }
    }
}

/// How many steps there are, and each, nested at most so deep.
#[cycle(steps)]
pub fn read_steps(
    alloc: Global,
    numbers: &mut Numbers<'_>,
    depth: u32,
) -> Result<Vec<BodyStep>, NoMemory> {
    let mut steps = Vec::new(alloc);
    if depth == 0 {
        return Ok(steps);
    }
    for _ in 0..numbers.index() {
        steps.push(read_step(alloc, numbers, depth - 1)?)?;
    }
    Ok(steps)
}
