//! The handles of an action that inline constraints in its activity name.
ghost use Rattle.std.specs.Prelude.{◌≡◌, ◌++◌, IfOk, OnOk, map};
ghost use Rattle.std.specs.List.{flat_map};
ghost use Rattle.pst_model.specs.ConstraintTree.{view_slot, view_constraint};
ghost use Rattle.pst_model.specs.ModelView.{view_action, view_content, view_step, view_branch, view_arm, maybe_step};
ghost use Rattle.pst_new_refusals.specs.Named.{first_handle, outer_handle, named_by, named_in, named_in_branch, named_in_arm, named_in_maybe, named_in_content, named_of};

use pst_base::NoMemory;
use pst_model::{ActionType, Arm, Branch, Constraint, Content, Slot, Step};
use std::alloc::Global;

// Adds the handle behind which a slot stands.
fn add_first(slot: &Slot, found: &mut Vec<u32>) -> Result<(), NoMemory>
    ensures { OnOk result (found.new.items ≡ found.old.items ++ first_handle (view_slot slot.now)) }
{
    match slot {
        Slot::Through { handle, .. } => {
            found.push(*handle)?;
            Ok(())
        }
        _ => Ok(()),
    }
}

// Adds the handle of the action round the traversed one behind which a slot of an inline constraint
// stands.
fn add_outer(slot: &Slot, found: &mut Vec<u32>) -> Result<(), NoMemory>
    ensures { OnOk result (found.new.items ≡ found.old.items ++ outer_handle (view_slot slot.now)) }
{
    match slot {
        Slot::Outer { slot } => add_first(slot, found),
        _ => Ok(()),
    }
}

fn add_slots(slots: &[Slot], found: &mut Vec<u32>) -> Result<(), NoMemory>
    ensures { OnOk result (found.new.items ≡ found.old.items ++ flat_map outer_handle (map view_slot slots.now)) }
{
    for slot in slots {
        add_outer(slot, found)?;
    }
    Ok(())
}

// Adds those that inline constraints name.
fn add_inline(inline: &[Constraint], found: &mut Vec<u32>) -> Result<(), NoMemory>
    ensures { OnOk result (found.new.items ≡ found.old.items ++ flat_map named_by (map view_constraint inline.now)) }
{
    for constraint in inline {
        add_slots(constraint.slots.as_slice(), found)?;
    }
    Ok(())
}

// Adds those in a step.
#[cycle(names)]
fn add_step(step: &Step, found: &mut Vec<u32>) -> Result<(), NoMemory>
    ensures { OnOk result (found.new.items ≡ found.old.items ++ named_in (view_step step.now)) }
{
    match step {
        Step::Traverse { inline, .. } => add_inline(inline.as_slice(), found),
        Step::Sequence(steps) => add_steps(steps.as_slice(), found),
        Step::Parallel(steps) => add_steps(steps.as_slice(), found),
        Step::Schedule(steps) => add_steps(steps.as_slice(), found),
        Step::Joined { steps, .. } => add_steps(steps.as_slice(), found),
        Step::Select(branches) => add_branches(branches.as_slice(), found),
        Step::Repeat { body, .. } => add_step(body, found),
        Step::If { yes, no, .. } => {
            add_step(yes, found)?;
            add_other(no, found)
        }
        Step::Match { arms, other, .. } => {
            add_arms(arms.as_slice(), found)?;
            add_other(other, found)
        }
    }
}

#[cycle(names)]
fn add_steps(steps: &[Step], found: &mut Vec<u32>) -> Result<(), NoMemory>
    ensures { OnOk result (found.new.items ≡ found.old.items ++ flat_map named_in (map view_step steps.now)) }
{
    for step in steps {
        add_step(step, found)?;
    }
    Ok(())
}

#[cycle(names)]
fn add_branches(branches: &[Branch], found: &mut Vec<u32>) -> Result<(), NoMemory>
    ensures { OnOk result (found.new.items ≡ found.old.items ++ flat_map named_in_branch (map view_branch branches.now)) }
{
    for branch in branches {
        add_step(&branch.step, found)?;
    }
    Ok(())
}

#[cycle(names)]
fn add_arms(arms: &[Arm], found: &mut Vec<u32>) -> Result<(), NoMemory>
    ensures { OnOk result (found.new.items ≡ found.old.items ++ flat_map named_in_arm (map view_arm arms.now)) }
{
    for arm in arms {
        add_step(&arm.step, found)?;
    }
    Ok(())
}

#[cycle(names)]
fn add_other(other: &Option<Box<Step>>, found: &mut Vec<u32>) -> Result<(), NoMemory>
    ensures { OnOk result (found.new.items ≡ found.old.items ++ named_in_maybe (maybe_step other.now)) }
{
    match other {
        Some(step) => add_step(step, found),
        None => Ok(()),
    }
}

// Adds those in what an action does.
fn add_content(content: &Content, found: &mut Vec<u32>) -> Result<(), NoMemory>
    ensures { OnOk result (found.new.items ≡ found.old.items ++ named_in_content (view_content content.now)) }
{
    match content {
        Content::Atomic(_) => Ok(()),
        Content::Compound(activity) => add_steps(activity.steps.as_slice(), found),
    }
}

/// The handles of an action type's action that inline constraints in its activity name, in order.
pub(crate) fn named_of(alloc: Global, kind: &ActionType) -> Result<Vec<u32>, NoMemory>
    ensures { IfOk result (λ found. found.items ≡ named_of (view_action kind.now)) }
{
    let mut found = Vec::new(alloc);
    add_content(&kind.content, &mut found)?;
    Ok(found)
}
