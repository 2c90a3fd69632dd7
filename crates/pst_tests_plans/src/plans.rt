//! Plans as texts.
use pst_scen::Plan;
use std::alloc::{AllocError, Global};

// Whether the plan has the first action end before the second starts.
fn must(plan: &Plan, a: u32, b: u32) -> bool {
    a < plan.len() && b < plan.len() && plan.must(a, b)
}

// Whether the two actions can't run at one time.
fn conflict(plan: &Plan, a: u32, b: u32) -> bool {
    a < plan.len() && b < plan.len() && plan.conflict(a, b)
}

// Adds the pairs with this first action: those in order, or those that conflict.
fn add_pairs(answer: &mut String, plan: &Plan, call: &str, a: u32) -> Result<(), AllocError> {
    for b in 0..plan.len() {
        if call == "orders" && must(plan, a, b) {
            write!(answer, " {a}<{b}")?;
        }
        if call == "conflicts" && conflict(plan, a, b) {
            write!(answer, " {a}-{b}")?;
        }
    }
    Ok(())
}

// All pairs that are in order, or that conflict.
fn pairs(alloc: Global, plan: &Plan, call: &str) -> Result<String, AllocError> {
    let mut answer = String::from_str(alloc, call)?;
    for a in 0..plan.len() {
        add_pairs(&mut answer, plan, call, a)?;
    }
    Ok(answer)
}

// The group of each action, and the size of the widest.
fn groups(alloc: Global, plan: &Plan) -> Result<String, AllocError> {
    let mut answer = String::from_str(alloc, "groups")?;
    for a in 0..plan.len() {
        write!(answer, " {}", plan.group(a))?;
    }
    write!(answer, ", widest {}", plan.width())?;
    Ok(answer)
}

// Whether the first and the last action are in order.
fn ends(alloc: Global, plan: &Plan) -> Result<String, AllocError> {
    let last = plan.len().saturating_sub(1);
    let answer = match (must(plan, 0, last), must(plan, last, 0)) {
        (true, false) => "in order",
        (false, true) => "reversed",
        _ => "neither",
    };
    String::from_str(alloc, answer)
}

/// Answers these calls on a scenario's plan:
///
/// - `orders`: the pairs of actions of which the first ends before the second starts.
/// - `conflicts`: the pairs that can't run at one time.
/// - `groups`: the group of each action, and the size of the widest.
/// - `ends`: whether the first and the last action are in order.
pub fn answer(alloc: Global, plan: &Plan, call: &str) -> Result<String, AllocError> {
    match call {
        "groups" => groups(alloc, plan),
        "ends" => ends(alloc, plan),
        _ => pairs(alloc, plan, call),
    }
}
