// Which steps of an activity are sound.
ghost use Rattle.std.specs.Prelude.{◌≤◌, length, IsTrue, ◌↔◌, All, AllPairs, IfSome, map, slice_get, option_map};
ghost use Rattle.std.specs.List.{flat_map};
ghost use Rattle.std.specs.Option.{IsSomeAnd};
ghost use Rattle.pst_model.specs.ConstraintTree.{view_constraint};
ghost use Rattle.pst_model.specs.ModelView.{view_model, view_action, view_step, view_branch, view_arm, maybe_step};
ghost use Rattle.pst_sound_parts.specs.Depth.{depth};
ghost use Rattle.pst_model.specs.SoundActivity.{IsCondition, IsHandle, IsTraversed, IsSoundBranch, IsSoundStep, EachStep, EachOfBranch, EachOfArm, EachOfMaybe, EachPart, IsJoin, AreApart};
ghost use Rattle.pst_model.specs.ActivityTree.{spans_of};
ghost use Rattle.pst_model.specs.Limits.{most_branches};

use pst_model::{ActionType, Arm, Branch, Constraint, Join, Model, Step};
use pst_sound_parts::{
    ConditionSite, InlineSite, Repeats, are_arms_apart, are_sound_there, is_join, is_sound_there,
};

// The most branches of a block with a join form.
const MOST_BRANCHES: usize = 64;

// The greatest weight of a branch.
const MOST_WEIGHT: u32 = 1000;

// Whether a condition, guard, count or matched value is sound.
fn is_condition(action: &ActionType, repeats: &Repeats, constraint: &Constraint) -> bool
    ensures { IsTrue result ↔ IsCondition (view_action action.now) (depth repeats.now) (view_constraint constraint.now) }
{
    is_sound_there(&ConditionSite { action, repeats }, constraint)
}

// Whether a handle, if there is one, is of the traversed action's type.
fn is_handle(handles: &[u32], traversed: u32, by: Option<u32>) -> bool
    ensures { IsTrue result ↔ IsHandle handles.now traversed by }
{
    match by {
        Some(handle) => handles.get(handle as usize).copied() == Some(traversed),
        None => true,
    }
}

// Whether an action may be traversed with these inline constraints.
fn is_traversed(
    model: &Model,
    action: &ActionType,
    repeats: &Repeats,
    inline: &[Constraint],
    traversed: u32,
) -> bool
    ensures { IsTrue result ↔ IsSomeAnd (slice_get (map view_action model.now.actions.items) traversed) (IsTraversed (view_model model.now) (view_action action.now) (depth repeats.now) (map view_constraint inline.now)) }
{
    match model.actions.get(traversed as usize) {
        Some(found) => is_concrete(model, action, repeats, inline, found),
        None => false,
    }
}

// Whether the traversed action isn't abstract, and the inline constraints on it are sound.
fn is_concrete(
    model: &Model,
    action: &ActionType,
    repeats: &Repeats,
    inline: &[Constraint],
    traversed: &ActionType,
) -> bool
    ensures { IsTrue result ↔ IsTraversed (view_model model.now) (view_action action.now) (depth repeats.now) (map view_constraint inline.now) (view_action traversed.now) }
{
    if traversed.is_abstract {
        return false;
    }
    let site = InlineSite {
        model,
        action,
        traversed,
        repeats,
    };
    are_sound_there(&site, inline)
}

// Whether a guard, if there is one, is sound.
fn is_guard(action: &ActionType, repeats: &Repeats, guard: &Option<Constraint>) -> bool
    ensures { IsTrue result ↔ IfSome (option_map view_constraint guard.now) (IsCondition (view_action action.now) (depth repeats.now)) }
{
    match guard {
        Some(condition) => is_condition(action, repeats, condition),
        None => true,
    }
}

// Whether the guard and the weight of a branch are sound.
fn is_sound_branch(action: &ActionType, repeats: &Repeats, branch: &Branch) -> bool
    ensures { IsTrue result ↔ IsSoundBranch (view_action action.now) (depth repeats.now) (view_branch branch.now) }
{
    branch.weight >= 1 && branch.weight <= MOST_WEIGHT && is_guard(action, repeats, &branch.guard)
}

// Whether the guards and weights of branches are sound.
fn are_sound_branches(action: &ActionType, repeats: &Repeats, branches: &[Branch]) -> bool
    ensures { IsTrue result ↔ All (IsSoundBranch (view_action action.now) (depth repeats.now)) (map view_branch branches.now) }
{
    branches
        .iter()
        .all(|branch| is_sound_branch(action, repeats, branch))
}

// Whether a block with a join form has few branches, and waits for some of them.
fn is_sound_block(join: Join, steps: &[Step]) -> bool
    ensures { IsTrue result ↔ (length steps.now ≤ most_branches) × IsJoin join (length steps.now) }
{
    steps.len() <= MOST_BRANCHES && is_join(join, steps.len())
}

// Whether a matched value is sound, and the arms' ranges are apart.
fn is_sound_match(action: &ActionType, repeats: &Repeats, value: &Constraint, arms: &[Arm]) -> bool
    ensures { IsTrue result ↔ IsCondition (view_action action.now) (depth repeats.now) (view_constraint value.now) × AllPairs AreApart (flat_map spans_of (map view_arm arms.now)) }
{
    is_condition(action, repeats, value) && are_arms_apart(arms)
}

// Whether a step of an action's activity is sound, whatever its parts are.
fn is_sound_step(
    model: &Model,
    action: &ActionType,
    handles: &[u32],
    repeats: &Repeats,
    step: &Step,
) -> bool
    ensures { IsTrue result ↔ IsSoundStep (view_model model.now) (view_action action.now) handles.now (depth repeats.now) (view_step step.now) }
{
    match step {
        Step::Traverse {
            action: traversed,
            handle,
            inline,
        } => {
            is_handle(handles, *traversed, *handle)
                && is_traversed(model, action, repeats, inline.as_slice(), *traversed)
        }
        Step::Sequence(_) => true,
        Step::Parallel(_) => true,
        Step::Schedule(_) => true,
        Step::Joined { join, steps, .. } => is_sound_block(*join, steps.as_slice()),
        Step::Select(branches) => are_sound_branches(action, repeats, branches.as_slice()),
        Step::Repeat { count, .. } => is_condition(action, repeats, count),
        Step::If { condition, .. } => is_condition(action, repeats, condition),
        Step::Match { value, arms, .. } => is_sound_match(action, repeats, value, arms.as_slice()),
    }
}

// Whether each step in a step, itself included, is sound.
#[cycle(steps)]
fn is_sound_whole(
    step: &Step,
    model: &Model,
    action: &ActionType,
    handles: &[u32],
    repeats: &Repeats,
) -> bool
    ensures { IsTrue result ↔ EachStep (IsSoundStep (view_model model.now) (view_action action.now) handles.now) (depth repeats.now) (view_step step.now) }
{
    is_sound_step(model, action, handles, repeats, step)
        && has_sound_parts(step, model, action, handles, repeats)
}

// Whether each step in the parts of a step is sound.
#[cycle(steps)]
fn has_sound_parts(
    step: &Step,
    model: &Model,
    action: &ActionType,
    handles: &[u32],
    repeats: &Repeats,
) -> bool
    ensures { IsTrue result ↔ EachPart (IsSoundStep (view_model model.now) (view_action action.now) handles.now) (depth repeats.now) (view_step step.now) }
{
    match step {
        Step::Traverse { .. } => true,
        Step::Sequence(steps) => are_sound_steps(steps.as_slice(), model, action, handles, repeats),
        Step::Parallel(steps) => are_sound_steps(steps.as_slice(), model, action, handles, repeats),
        Step::Schedule(steps) => are_sound_steps(steps.as_slice(), model, action, handles, repeats),
        Step::Joined { steps, .. } => are_sound_steps(
            steps.as_slice(),
            model,
            action,
            handles,
            repeats,
        ),
        Step::Select(branches) => has_sound_branches(
            branches.as_slice(),
            model,
            action,
            handles,
            repeats,
        ),
        Step::Repeat { body, .. } => is_sound_whole(
            body,
            model,
            action,
            handles,
            &Repeats::Within(&*repeats),
        ),
        Step::If { yes, no, .. } => {
            is_sound_whole(yes, model, action, handles, repeats)
                && is_sound_other(no, model, action, handles, repeats)
        }
        Step::Match { arms, other, .. } => {
            has_sound_arms(arms.as_slice(), model, action, handles, repeats)
                && is_sound_other(other, model, action, handles, repeats)
        }
    }
}

// Whether each step in these is sound.
#[cycle(steps)]
pub fn are_sound_steps(
    steps: &[Step],
    model: &Model,
    action: &ActionType,
    handles: &[u32],
    repeats: &Repeats,
) -> bool
    ensures { IsTrue result ↔ All (EachStep (IsSoundStep (view_model model.now) (view_action action.now) handles.now) (depth repeats.now)) (map view_step steps.now) }
{
    for step in steps {
        if !is_sound_whole(step, model, action, handles, repeats) {
            return false;
        }
    }
    true
}

// Whether each step in the branches is sound.
#[cycle(steps)]
fn has_sound_branches(
    branches: &[Branch],
    model: &Model,
    action: &ActionType,
    handles: &[u32],
    repeats: &Repeats,
) -> bool
    ensures { IsTrue result ↔ All (EachOfBranch (IsSoundStep (view_model model.now) (view_action action.now) handles.now) (depth repeats.now)) (map view_branch branches.now) }
{
    for branch in branches {
        if !is_sound_whole(&branch.step, model, action, handles, repeats) {
            return false;
        }
    }
    true
}

// Whether each step in the arms is sound.
#[cycle(steps)]
fn has_sound_arms(
    arms: &[Arm],
    model: &Model,
    action: &ActionType,
    handles: &[u32],
    repeats: &Repeats,
) -> bool
    ensures { IsTrue result ↔ All (EachOfArm (IsSoundStep (view_model model.now) (view_action action.now) handles.now) (depth repeats.now)) (map view_arm arms.now) }
{
    for arm in arms {
        if !is_sound_whole(&arm.step, model, action, handles, repeats) {
            return false;
        }
    }
    true
}

// Whether each step in another part, if there is one, is sound.
#[cycle(steps)]
fn is_sound_other(
    other: &Option<Box<Step>>,
    model: &Model,
    action: &ActionType,
    handles: &[u32],
    repeats: &Repeats,
) -> bool
    ensures { IsTrue result ↔ EachOfMaybe (IsSoundStep (view_model model.now) (view_action action.now) handles.now) (depth repeats.now) (maybe_step other.now) }
{
    match other {
        Some(step) => is_sound_whole(step, model, action, handles, repeats),
        None => true,
    }
}
