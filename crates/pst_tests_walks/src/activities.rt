//! Activities that are written as numbers.
//!
//! A step is 0, an action type, and 0 or its handle and 1; 1 to 3, for a sequence, a parallel block
//! and a schedule, and the steps; 4, 1 for a parallel block or 0 for a schedule, 1 and the bits of
//! the branches that are joined or 0 and how many are, and the steps; 5 and the branches, each 0, or 1
//! and a guard, then a weight and a step; 6, a count and a step; 7, a condition, a step, and 0, or 1
//! and a step; 8, a value, the arms, each ranges and a step, and 0, or 1 and a step. A list stands
//! behind the count of its items.
//!
//! An expression is 0 and a number; 1 and a field of the action; 2 and the level of an index; or 4
//! for a sum, 5 for a difference, 6 for a product, 9 for a comparison (less) or 10 (equal), and two
//! parts.
use crate::numbers::Numbers;
use pst_base::NoMemory;
use pst_expr::{BinaryOp, Expr, Span};
use pst_model::{Activity, Arm, Branch, Constraint, Join, Slot, Step, Tie};
use std::alloc::Global;

// How deep steps, and expressions, stand in one another.
const DEPTH: u32 = 8;

fn operator(code: i64) -> BinaryOp {
    match code {
        4 => BinaryOp::Add,
        5 => BinaryOp::Sub,
        6 => BinaryOp::Mul,
        9 => BinaryOp::Less,
        _ => BinaryOp::Equal,
    }
}

// A variable that stands for the slot.
fn variable(slots: &mut Vec<Slot>, slot: Slot) -> Result<Expr, NoMemory> {
    let number = u32::try_from(slots.len()).unwrap_or(0);
    slots.push(slot)?;
    Ok(Expr::Variable(number))
}

fn expression(
    alloc: Global,
    numbers: &mut Numbers<'_>,
    slots: &mut Vec<Slot>,
    depth: u32,
) -> Result<Expr, NoMemory> {
    if depth == 0 {
        return Ok(Expr::Constant(0));
    }
    match numbers.next() {
        0 => Ok(Expr::Constant(numbers.next())),
        1 => {
            let field = numbers.index();
            variable(slots, Slot::Own { field })
        }
        2 => {
            let level = numbers.index();
            variable(slots, Slot::Index { level })
        }
        code => {
            let left = Box::new(alloc, expression(alloc, numbers, slots, depth - 1)?)?;
            let right = Box::new(alloc, expression(alloc, numbers, slots, depth - 1)?)?;
            Ok(Expr::Binary(operator(code), left, right))
        }
    }
}

fn constraint(alloc: Global, numbers: &mut Numbers<'_>) -> Result<Constraint, NoMemory> {
    let mut slots = Vec::new(alloc);
    let expr = expression(alloc, numbers, &mut slots, DEPTH)?;
    Ok(Constraint { expr, slots })
}

fn guard(alloc: Global, numbers: &mut Numbers<'_>) -> Result<Option<Constraint>, NoMemory> {
    if !numbers.flag() {
        return Ok(None);
    }
    Ok(Some(constraint(alloc, numbers)?))
}

fn spans(alloc: Global, numbers: &mut Numbers<'_>) -> Result<Vec<Span>, NoMemory> {
    let mut spans = Vec::new(alloc);
    for _ in 0..numbers.index() {
        let low = numbers.next();
        let high = numbers.next();
        spans.push(Span { low, high })?;
    }
    Ok(spans)
}

fn traverse(alloc: Global, numbers: &mut Numbers<'_>) -> Step {
    let action = numbers.index();
    let handle = numbers.index().checked_sub(1);
    Step::Traverse {
        action,
        handle,
        inline: Vec::new(alloc),
    }
}

fn join(numbers: &mut Numbers<'_>) -> Join {
    let is_fixed = numbers.flag();
    let count = numbers.index();
    if is_fixed {
        Join::Fixed {
            joined: u64::from(count),
        }
    } else {
        Join::Choose { count }
    }
}

#[cycle(steps)]
fn branch(alloc: Global, numbers: &mut Numbers<'_>, depth: u32) -> Result<Branch, NoMemory> {
    let guard = guard(alloc, numbers)?;
    let weight = numbers.index();
    let step = step(alloc, numbers, depth)?;
    Ok(Branch {
        guard,
        weight,
        step,
    })
}

#[cycle(steps)]
fn branches(alloc: Global, numbers: &mut Numbers<'_>, depth: u32) -> Result<Vec<Branch>, NoMemory> {
    let mut branches = Vec::new(alloc);
    for _ in 0..numbers.index() {
        branches.push(branch(alloc, numbers, depth)?)?;
    }
    Ok(branches)
}

#[cycle(steps)]
fn arm(alloc: Global, numbers: &mut Numbers<'_>, depth: u32) -> Result<Arm, NoMemory> {
    let spans = spans(alloc, numbers)?;
    let step = step(alloc, numbers, depth)?;
    Ok(Arm { spans, step })
}

#[cycle(steps)]
fn arms(alloc: Global, numbers: &mut Numbers<'_>, depth: u32) -> Result<Vec<Arm>, NoMemory> {
    let mut arms = Vec::new(alloc);
    for _ in 0..numbers.index() {
        arms.push(arm(alloc, numbers, depth)?)?;
    }
    Ok(arms)
}

#[cycle(steps)]
fn optional(
    alloc: Global,
    numbers: &mut Numbers<'_>,
    depth: u32,
) -> Result<Option<Box<Step>>, NoMemory> {
    if !numbers.flag() {
        return Ok(None);
    }
    Ok(Some(Box::new(alloc, step(alloc, numbers, depth)?)?))
}

#[cycle(steps)]
fn conditional(alloc: Global, numbers: &mut Numbers<'_>, depth: u32) -> Result<Step, NoMemory> {
    let condition = constraint(alloc, numbers)?;
    let yes = Box::new(alloc, step(alloc, numbers, depth)?)?;
    let no = optional(alloc, numbers, depth)?;
    Ok(Step::If { condition, yes, no })
}

#[cycle(steps)]
fn matched(alloc: Global, numbers: &mut Numbers<'_>, depth: u32) -> Result<Step, NoMemory> {
    let value = constraint(alloc, numbers)?;
    let arms = arms(alloc, numbers, depth)?;
    let other = optional(alloc, numbers, depth)?;
    Ok(Step::Match { value, arms, other })
}

#[cycle(steps)]
fn step(alloc: Global, numbers: &mut Numbers<'_>, depth: u32) -> Result<Step, NoMemory> {
    if depth == 0 {
        return Ok(Step::Sequence(Vec::new(alloc)));
    }
    match numbers.next() {
        0 => Ok(traverse(alloc, numbers)),
        1 => Ok(Step::Sequence(steps(alloc, numbers, depth - 1)?)),
        2 => Ok(Step::Parallel(steps(alloc, numbers, depth - 1)?)),
        3 => Ok(Step::Schedule(steps(alloc, numbers, depth - 1)?)),
        4 => {
            let parallel = numbers.flag();
            let join = join(numbers);
            let steps = steps(alloc, numbers, depth - 1)?;
            Ok(Step::Joined {
                parallel,
                join,
                steps,
            })
        }
        5 => Ok(Step::Select(branches(alloc, numbers, depth - 1)?)),
        6 => {
            let count = constraint(alloc, numbers)?;
            let body = Box::new(alloc, step(alloc, numbers, depth - 1)?)?;
            Ok(Step::Repeat { count, body })
        }
        7 => conditional(alloc, numbers, depth - 1),
        _ => matched(alloc, numbers, depth - 1),
    }
}

#[cycle(steps)]
fn steps(alloc: Global, numbers: &mut Numbers<'_>, depth: u32) -> Result<Vec<Step>, NoMemory> {
    let mut steps = Vec::new(alloc);
    for _ in 0..numbers.index() {
        steps.push(step(alloc, numbers, depth)?)?;
    }
    Ok(steps)
}

fn handles(alloc: Global, numbers: &mut Numbers<'_>) -> Result<Vec<u32>, NoMemory> {
    let mut handles = Vec::new(alloc);
    for _ in 0..numbers.index() {
        handles.push(numbers.index())?;
    }
    Ok(handles)
}

fn binds(alloc: Global, numbers: &mut Numbers<'_>) -> Result<Vec<Tie>, NoMemory> {
    let mut binds = Vec::new(alloc);
    for _ in 0..numbers.index() {
        let from_handle = numbers.index();
        let from_reference = numbers.index();
        let to_handle = numbers.index();
        let to_reference = numbers.index();
        binds.push(Tie {
            from_handle,
            from_reference,
            to_handle,
            to_reference,
        })?;
    }
    Ok(binds)
}

/// The activity that comes next: the action types of its handles, its steps and its binds, each a
/// handle, a reference, a handle and a reference.
pub fn activity(alloc: Global, numbers: &mut Numbers<'_>) -> Result<Activity, NoMemory> {
    let handles = handles(alloc, numbers)?;
    let binds = binds(alloc, numbers)?;
    let steps = steps(alloc, numbers, DEPTH)?;
    Ok(Activity {
        handles,
        steps,
        binds,
    })
}
