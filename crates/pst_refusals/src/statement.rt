//! The statement that a node stands for, found from the node up.
ghost use Rattle.std.specs.Prelude.{◌≡◌, IfOk, [], slice_get};
ghost use Rattle.std.specs.Option.{option_map, option_and_then};
ghost use Rattle.pst_model.specs.declared.activity.Branch.{Branch as TheBranch};
ghost use Rattle.pst_model.specs.declared.activity.Arm.{Arm as TheArm};
ghost use Rattle.pst_model.specs.ModelView.{view_model, view_step};
ghost use Rattle.pst_scen.specs.declared.tree.Fill.TheVariants as fill;
ghost use Rattle.pst_legal.specs.Statements.{step_below};
ghost use Rattle.pst_slots.specs.Stated.{part_at, repeated_in, statement_of, at_place};
ghost use Rattle.pst_slots.specs.Stated.{parent_of as parent_in};
ghost use Rattle.pst_refusals.specs.Answers.{StandEarlier};
ghost use Rattle.pst_refusals.specs.Founds.{stated_of, stated_at, step_at};
ghost use Rattle.pst_refusals.specs.Places.{ArePlaces, place_by};
ghost use Rattle.pst_refusals.specs.Within.{stated_by};

use crate::places::{parent_of, place_of};
use pst_base::NoMemory;
use pst_model::{Arm, Branch, Content, Model, Step};
use pst_scen::{Fill, Node};
use std::alloc::Global;

/// A statement of the activity of the compound action of node `top`, in turns of these numbers, the
/// outermost first.
#[derive(Drop)]
pub struct Stated<'a> {
    /// The number of that node.
    pub top: usize,
    /// The statement.
    pub step: &'a Step,
    /// The numbers of the turns.
    pub indices: Vec<u32>,
}

// The statement at a place of an action type's activity.
fn step_at<'a>(model: &'a Model, action: u32, index: usize) -> Option<&'a Step>
    ensures { option_map (λ s. view_step s.now) result ≡ step_at (view_model model.now) action index }
{
    match &model.actions.get(action as usize)?.content {
        Content::Atomic(_) => None,
        Content::Compound(activity) => activity.steps.get(index),
    }
}

fn in_sequence<'a>(step: &'a Step, index: usize) -> Option<&'a Step>
    ensures { option_map (λ s. view_step s.now) result ≡ step_below fill.Sequence (view_step step.now) index }
{
    match step {
        Step::Sequence(steps) => steps.get(index),
        _ => None,
    }
}

fn in_parallel<'a>(step: &'a Step, index: usize) -> Option<&'a Step>
    ensures { option_map (λ s. view_step s.now) result ≡ step_below fill.Parallel (view_step step.now) index }
{
    match step {
        Step::Parallel(steps) => steps.get(index),
        _ => None,
    }
}

fn in_schedule<'a>(step: &'a Step, index: usize) -> Option<&'a Step>
    ensures { option_map (λ s. view_step s.now) result ≡ step_below fill.Schedule (view_step step.now) index }
{
    match step {
        Step::Schedule(steps) => steps.get(index),
        _ => None,
    }
}

fn in_joined<'a>(step: &'a Step, parallel: bool, joined: u64, index: usize) -> Option<&'a Step>
    ensures { option_map (λ s. view_step s.now) result ≡ step_below (fill.Joined parallel joined) (view_step step.now) index }
{
    match step {
        Step::Joined { steps, .. } => steps.get(index),
        _ => None,
    }
}

// The step of the branch of that number.
fn branch_at(branches: &[Branch], branch: u32) -> Option<&Step>
    ensures { option_map (λ s. view_step s.now) result ≡ option_map (λ (b : TheBranch). view_step b.step) (slice_get branches.now branch) }
{
    match branches.get(branch as usize) {
        None => None,
        Some(branch) => Some(&branch.step),
    }
}

// The step of the arm of that number.
fn arm_at(arms: &[Arm], arm: u32) -> Option<&Step>
    ensures { option_map (λ s. view_step s.now) result ≡ option_map (λ (a : TheArm). view_step a.step) (slice_get arms.now arm) }
{
    match arms.get(arm as usize) {
        None => None,
        Some(arm) => Some(&arm.step),
    }
}

fn in_select<'a>(step: &'a Step, branch: u32, index: usize) -> Option<&'a Step>
    ensures { option_map (λ s. view_step s.now) result ≡ step_below (fill.Select branch) (view_step step.now) index }
{
    match step {
        Step::Select(branches) => branch_at(branches.as_slice(), branch),
        _ => None,
    }
}

fn in_if<'a>(step: &'a Step, taken: bool, index: usize) -> Option<&'a Step>
    ensures { option_map (λ s. view_step s.now) result ≡ step_below (fill.If taken) (view_step step.now) index }
{
    match step {
        Step::If { yes, no, .. } => {
            if taken {
                return Some(yes);
            }
            match no {
                Some(no) => Some(no),
                None => None,
            }
        }
        _ => None,
    }
}

fn in_match<'a>(step: &'a Step, arm: Option<u32>, index: usize) -> Option<&'a Step>
    ensures { option_map (λ s. view_step s.now) result ≡ step_below (fill.Match arm) (view_step step.now) index }
{
    match step {
        Step::Match { arms, other, .. } => match arm {
            Some(arm) => arm_at(arms.as_slice(), arm),
            None => match other {
                Some(other) => Some(other),
                None => None,
            },
        },
        _ => None,
    }
}

// The statement that the child of that place fills, where a node of this fill stands for a statement.
fn step_below<'a>(fill: &Fill, step: &'a Step, index: usize) -> Option<&'a Step>
    ensures { option_map (λ s. view_step s.now) result ≡ step_below fill.now (view_step step.now) index }
{
    match fill {
        Fill::Sequence => in_sequence(step, index),
        Fill::Parallel => in_parallel(step, index),
        Fill::Schedule => in_schedule(step, index),
        Fill::Joined { parallel, joined } => in_joined(step, *parallel, *joined, index),
        Fill::Select { branch } => in_select(step, *branch, index),
        Fill::If { yes } => in_if(step, *yes, index),
        Fill::Match { arm } => in_match(step, *arm, index),
        _ => None,
    }
}

// The part of a statement at a place, where a node of this fill stands for the statement.
fn part_at<'a>(
    fill: &Fill,
    top: usize,
    step: &'a Step,
    indices: Vec<u32>,
    index: usize,
) -> Option<Stated<'a>>
    ensures { option_map stated_of result ≡ part_at fill.now (stated_at top (view_step step.now) indices.items) index }
{
    match step_below(fill, step, index) {
        None => None,
        Some(step) => Some(Stated { top, step, indices }),
    }
}

// What a repetition repeats, in the turn of that number.
fn repeated_in<'a>(
    top: usize,
    step: &'a Step,
    indices: Vec<u32>,
    index: u32,
) -> Result<Option<Stated<'a>>, NoMemory>
    ensures { IfOk result (λ found. option_map stated_of found ≡ repeated_in index (stated_at top (view_step step.now) indices.items)) }
{
    match step {
        Step::Repeat { body, .. } => {
            let mut indices = indices;
            indices.push(index)?;
            Ok(Some(Stated {
                top,
                step: body,
                indices,
            }))
        }
        _ => Ok(None),
    }
}

// The statement at a place in the activity of the compound action of node `top`.
fn at_top<'a>(
    alloc: Global,
    model: &'a Model,
    top: usize,
    action: u32,
    place: Option<usize>,
) -> Option<Stated<'a>>
    ensures { option_map stated_of result ≡ option_and_then (at_place (view_model model.now) top action) place }
{
    match place {
        None => None,
        Some(index) => match step_at(model, action, index) {
            None => None,
            Some(step) => Some(Stated {
                top,
                step,
                indices: Vec::new(alloc),
            }),
        },
    }
}

// The statement in a turn of a repetition.
#[cycle(statements)]
fn in_turn<'a>(
    alloc: Global,
    model: &'a Model,
    nodes: &[Node],
    places: Option<&[usize]>,
    levels: usize,
    parent: usize,
    index: u32,
) -> Result<Option<Stated<'a>>, NoMemory>
    ensures { IfOk result (λ found. option_map stated_of found ≡ option_and_then (repeated_in index) (option_and_then (stated_by (view_model model.now) nodes.now (place_by nodes.now (option_map (λ t. t.now) places.entry)) levels) (parent_in nodes.now parent))) }
{
    let Some(over) = parent_of(nodes, parent) else {
        return Ok(None);
    };
    match stated_by(alloc, model, nodes, places, levels, over)? {
        None => Ok(None),
        Some(above) => repeated_in(above.top, above.step, above.indices, index),
    }
}

// The part at a place of the statement of a node.
#[cycle(statements)]
fn in_part<'a>(
    alloc: Global,
    model: &'a Model,
    nodes: &[Node],
    places: Option<&[usize]>,
    levels: usize,
    parent: usize,
    fill: &Fill,
    place: Option<usize>,
) -> Result<Option<Stated<'a>>, NoMemory>
    ensures { IfOk result (λ found. option_map stated_of found ≡ option_and_then (λ above. option_and_then (part_at fill.now above) place) (stated_by (view_model model.now) nodes.now (place_by nodes.now (option_map (λ t. t.now) places.entry)) levels parent)) }
{
    match stated_by(alloc, model, nodes, places, levels, parent)? {
        None => Ok(None),
        Some(above) => match place {
            None => Ok(None),
            Some(index) => Ok(part_at(fill, above.top, above.step, above.indices, index)),
        },
    }
}

// The statement that a node stands for, with at most so many nodes on the way up.
#[cycle(statements)]
fn stated_by<'a>(
    alloc: Global,
    model: &'a Model,
    nodes: &[Node],
    places: Option<&[usize]>,
    levels: usize,
    n: usize,
) -> Result<Option<Stated<'a>>, NoMemory>
    ensures { IfOk result (λ found. option_map stated_of found ≡ stated_by (view_model model.now) nodes.now (place_by nodes.now (option_map (λ t. t.now) places.entry)) levels n) }
{
    if levels == 0 {
        return Ok(None);
    }
    let Some(parent) = parent_of(nodes, n) else {
        return Ok(None);
    };
    let Some(node) = nodes.get(parent) else {
        return Ok(None);
    };
    match &node.fill {
        Fill::Compound { action, .. } => {
            let place = place_of(nodes, places, n, parent);
            Ok(at_top(alloc, model, parent, *action, place))
        }
        Fill::Turn { index } => in_turn(alloc, model, nodes, places, levels - 1, parent, *index),
        Fill::Repeat => Ok(None),
        fill => {
            let place = place_of(nodes, places, n, parent);
            in_part(alloc, model, nodes, places, levels - 1, parent, fill, place)
        }
    }
}

/// The statement that a node stands for, by the places of the nodes in their parents.
pub fn statement_of<'a>(
    alloc: Global,
    model: &'a Model,
    nodes: &[Node],
    places: &[usize],
    n: usize,
) -> Result<Option<Stated<'a>>, NoMemory>
    requires { ArePlaces nodes.now places.now }
    ensures { IfOk result (λ found. option_map stated_of found ≡ statement_of (view_model model.now) nodes.now n) }
{
    let found = stated_by(alloc, model, nodes, Some(places), nodes.len(), n)?;
    Ok(found)
}

/// The statement that a node stands for, where each node's parent stands before it. Only the nodes
/// between this one and the compound action round it are looked at.
pub fn statement_behind<'a>(
    alloc: Global,
    model: &'a Model,
    nodes: &[Node],
    n: usize,
) -> Result<Option<Stated<'a>>, NoMemory>
    ensures { IfOk result (λ found. StandEarlier nodes.now → option_map stated_of found ≡ statement_of (view_model model.now) nodes.now n) }
{
    let found = stated_by(alloc, model, nodes, None, nodes.len(), n)?;
    Ok(found)
}
