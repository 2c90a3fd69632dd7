//! Whether a model's activities have inline constraints, or some that look behind handles.
ghost use Rattle.std.specs.Prelude.{◌≡◌, map};
ghost use Rattle.pst_model.specs.ConstraintTree.{view_constraint};
ghost use Rattle.std.specs.List.{list_any};
ghost use Rattle.pst_model.specs.ModelView.{view_model, view_action, view_content, view_step, view_branch, view_arm, maybe_step};
ghost use Rattle.pst_refusals.specs.declared.inlines.Sought.TheVariants as sought;
ghost use Rattle.pst_refusals.specs.Inlines.{is_sought, has_inline, branch_has, arm_has, maybe_has, content_has, type_has, has_inlines};

use crate::far::{some_far, some_outer};
use pst_model::{ActionType, Arm, Branch, Constraint, Content, Model, Step};

/// Which inline constraints are sought.
#[derive(Clone, Copy)]
pub enum Sought {
    /// All.
    Any,
    /// Those that look behind a handle, of the traversed action or of the one round it.
    Far,
    /// Those that look behind a handle of the action round the traversed one.
    Outer,
}

// Whether one of these constraints is sought.
fn is_sought(sought: Sought, inline: &[Constraint]) -> bool
    ensures { result ≡ is_sought sought (map view_constraint inline.now) }
{
    match sought {
        Sought::Any => inline.len() > 0,
        Sought::Far => some_far(inline),
        Sought::Outer => some_outer(inline),
    }
}

// Whether some traversal in a step has an inline constraint that is sought.
#[cycle(inlines)]
fn has_inline(sought: Sought, step: &Step) -> bool
    ensures { result ≡ has_inline sought (view_step step.now) }
{
    match step {
        Step::Traverse { inline, .. } => is_sought(sought, inline.as_slice()),
        Step::Sequence(steps) => steps_have(sought, steps.as_slice()),
        Step::Parallel(steps) => steps_have(sought, steps.as_slice()),
        Step::Schedule(steps) => steps_have(sought, steps.as_slice()),
        Step::Joined { steps, .. } => steps_have(sought, steps.as_slice()),
        Step::Select(branches) => branches_have(sought, branches.as_slice()),
        Step::Repeat { body, .. } => has_inline(sought, body),
        Step::If { yes, no, .. } => has_inline(sought, yes) || other_has(sought, no),
        Step::Match { arms, other, .. } => arms_have(sought, arms.as_slice())
            || other_has(sought, other),
    }
}

#[cycle(inlines)]
fn steps_have(sought: Sought, steps: &[Step]) -> bool
    ensures { result ≡ list_any (has_inline sought) (map view_step steps.now) }
{
    for step in steps {
        if has_inline(sought, step) {
            return true;
        }
    }
    false
}

#[cycle(inlines)]
fn branches_have(sought: Sought, branches: &[Branch]) -> bool
    ensures { result ≡ list_any (branch_has sought) (map view_branch branches.now) }
{
    for branch in branches {
        if has_inline(sought, &branch.step) {
            return true;
        }
    }
    false
}

#[cycle(inlines)]
fn arms_have(sought: Sought, arms: &[Arm]) -> bool
    ensures { result ≡ list_any (arm_has sought) (map view_arm arms.now) }
{
    for arm in arms {
        if has_inline(sought, &arm.step) {
            return true;
        }
    }
    false
}

#[cycle(inlines)]
fn other_has(sought: Sought, other: &Option<Box<Step>>) -> bool
    ensures { result ≡ maybe_has sought (maybe_step other.now) }
{
    match other {
        Some(step) => has_inline(sought, step),
        None => false,
    }
}

/// Whether an action type's activity has an inline constraint that is sought.
pub fn content_has(sought: Sought, content: &Content) -> bool
    ensures { result ≡ content_has sought (view_content content.now) }
{
    match content {
        Content::Atomic(_) => false,
        Content::Compound(activity) => steps_have(sought, activity.steps.as_slice()),
    }
}

// Whether one of the activities of action types has an inline constraint.
fn some_type_has(kinds: &[ActionType]) -> bool
    ensures { result ≡ list_any (type_has sought.Any) (map view_action kinds.now) }
{
    for kind in kinds {
        if content_has(Sought::Any, &kind.content) {
            return true;
        }
    }
    false
}

/// Whether one of the model's activities has an inline constraint.
pub fn has_inlines(model: &Model) -> bool
    ensures { result ≡ has_inlines (view_model model.now) }
{
    some_type_has(model.actions.as_slice())
}
