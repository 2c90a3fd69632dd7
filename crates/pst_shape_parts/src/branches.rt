//! The branches and arms that may be taken, and the branches that a block waits for.
ghost use Rattle.std.specs.Prelude.{◌≡◌, ◌++◌, ◌∷◌, [], ◌≤◌, ◌<◌, ◌^◌, IfOk, OnOk, All, length, map, option_map, MatchOption, true, None, Some};
ghost use Rattle.std.specs.List.{enumerate_from, find, list_any};
ghost use Rattle.pst_rng.specs.Weights.{IsWeight};
ghost use Rattle.pst_model.specs.ConstraintTree.{view_constraint};
ghost use Rattle.pst_model.specs.ActivityTree.{weight_of};
ghost use Rattle.pst_model.specs.ModelView.{view_branch, view_arm};
ghost use Rattle.pst_legal.specs.Pieces.{holds_in, is_true, mask};
ghost use Rattle.pst_legal.specs.Menus.{available, is_in_span, is_in_arm};
ghost use Rattle.pst_shape_parts.specs.Contexts.{context_of, view_numbered, taken_of};

use crate::context::Frame;
use pst_base::NoMemory;
use pst_expr::Span;
use pst_model::{Arm, Branch, Constraint};
use std::alloc::Global;

/// A branch with its number in the `select`.
#[derive(Clone, Copy)]
pub struct Numbered<'a> {
    pub number: u32,
    pub branch: &'a Branch,
}

/// The branches of a `select` that may be taken, and their weights.
#[derive(Drop)]
pub struct Branches<'a> {
    pub branches: Vec<Numbered<'a>>,
    pub weights: Vec<u32>,
    ghost same: { weights.items ≡ map (λ e. weight_of e.1) (map view_numbered branches.items) },
    ghost each: { All IsWeight weights.items },
}

// Whether the guard is absent or holds.
fn holds(alloc: Global, frame: &Frame, guard: &Option<Constraint>) -> Result<bool, NoMemory>
    ensures { IfOk result (λ b. b ≡ holds_in (context_of frame.now) (option_map view_constraint guard.now)) }
{
    match guard {
        None => Ok(true),
        Some(guard) => match frame.value(alloc, guard)? {
            Some(value) => Ok(value != 0),
            None => Ok(false),
        },
    }
}

// Whether a weight is one that a model may have.
fn is_weight(weight: u32) -> bool
    ensures { result ≡ true → IsWeight weight }
{
    1 <= weight && weight <= 1000
}

// Adds a branch where it may be taken.
fn add_branch<'a>(
    alloc: Global,
    found: &mut Vec<Numbered<'a>>,
    frame: &Frame,
    number: usize,
    branch: &'a Branch,
) -> Result<(), NoMemory>
    ensures { OnOk result (map view_numbered found.new.items ≡ map view_numbered found.old.items ++ taken_of (context_of frame.now) (number, view_branch branch.now)) }
{
    if holds(alloc, frame, &branch.guard)? {
        let Ok(number) = u32::try_from(number) else {
            return Err(NoMemory);
        };
        found.push(Numbered { number, branch })?;
    }
    Ok(())
}

// The branches that may be taken.
fn available<'a>(
    alloc: Global,
    frame: &Frame,
    branches: &'a [Branch],
) -> Result<Vec<Numbered<'a>>, NoMemory>
    ensures { IfOk result (λ found. map view_numbered found.items ≡ available (context_of frame.now) (map view_branch branches.now)) }
{
    let mut found = Vec::new(alloc);
    let mut number = 0;
    for branch in branches {
        add_branch(alloc, &mut found, frame, number, branch)?;
        number += 1;
    }
    Ok(found)
}

// The weights of branches. A sound model has none but those from 1 to 1,000.
fn weights(alloc: Global, branches: &[Numbered<'_>]) -> Result<Vec<u32>, NoMemory>
    ensures same { IfOk result (λ found. found.items ≡ map (λ e. weight_of e.1) (map view_numbered branches.now)) }
    ensures each { IfOk result (λ found. All IsWeight found.items) }
{
    let mut found = Vec::new(alloc);
    for taken in branches {
        let weight = taken.branch.weight;
        if !is_weight(weight) {
            return Err(NoMemory);
        }
        found.push(weight)?;
    }
    Ok(found)
}

impl<'a> Branches<'a> {
    /// The branches of a `select` that may be taken.
    pub fn new(
        alloc: Global,
        frame: &Frame,
        branches: &'a [Branch],
    ) -> Result<Branches<'a>, NoMemory>
        ensures { IfOk result (λ found. map view_numbered found.branches.items ≡ available (context_of frame.now) (map view_branch branches.now)) }
    {
        let branches = available(alloc, frame, branches)?;
        let weights = weights(alloc, branches.as_slice())?;
        Ok(Branches { branches, weights })
    }
}

// Whether one of the ranges has the value.
fn is_in(value: i64, spans: &[Span]) -> bool
    ensures { result ≡ list_any (is_in_span value) spans.now }
{
    for span in spans {
        if span.low <= value && value <= span.high {
            return true;
        }
    }
    false
}

/// The first arm whose ranges have the value, with its number.
pub fn arm_with(value: i64, arms: &[Arm]) -> Option<(usize, &Arm)>
    ensures { MatchOption result (find (is_in_arm value) (enumerate_from 0 (map view_arm arms.now)) ≡ None) (λ e. find (is_in_arm value) (enumerate_from 0 (map view_arm arms.now)) ≡ Some (e.0, view_arm e.1.now)) }
{
    let mut number = 0;
    for arm in arms {
        if is_in(value, arm.spans.as_slice()) {
            return Some((number, arm));
        }
        number += 1;
    }
    None
}

/// The bits of the branches that are waited for: bit k stands for branch k.
pub fn mask_of(joined: &[bool]) -> u64
    requires { length joined.now ≤ 64 }
    ensures value { result ≡ mask joined.now }
    ensures few { result < 2 ^ length joined.now }
{
    match joined.split_first() {
        None => 0,
        Some((first, rest)) => {
            let above = 2 * mask_of(rest);
            if *first { above + 1 } else { above }
        }
    }
}
