// Which handles an activity traverses once, whatever its conditions are.
ghost use Rattle.std.specs.Prelude.{◌≡◌, ℕ, map, IsTrue, ◌↔◌, true};
ghost use Rattle.std.specs.List.{flat_map};
ghost use Rattle.pst_model.specs.ModelView.{view_step, view_branch, view_arm, maybe_step};
ghost use Rattle.pst_model.specs.Traversals.{traversal_by, traversals, traversals_of_branch, traversals_of_arm, traversals_of_maybe, IsSteady};
ghost use Rattle.pst_sound_parts.specs.Seen.{seen_of, joined};

use pst_model::{Arm, Branch, Step};

// What is kept of the traversals of a handle.
#[derive(Clone, Copy, PartialEq, Eq)]
pub enum Seen {
    // There is none.
    Never,
    // There is one, which stands within no `select`, `repeat`, `if` or `match`.
    Once,
    // There are others.
    Otherwise,
}

// What is kept of traversals and further ones.
fn join(earlier: Seen, later: Seen) -> Seen
    ensures { result ≡ joined earlier later }
{
    match earlier {
        Seen::Never => later,
        Seen::Once if later == Seen::Never => Seen::Once,
        _ => Seen::Otherwise,
    }
}

// Whether a traversal is by the handle.
fn seen_by(handle: u32, within: bool, by: Option<u32>) -> Seen
    ensures { result ≡ seen_of (traversal_by handle within by) }
{
    match by {
        Some(other) if other == handle => { if within { Seen::Otherwise } else { Seen::Once } }
        _ => Seen::Never,
    }
}

// The traversals of the handle in a step; `within` a conditional one, or not.
#[cycle(seen)]
fn seen_in(step: &Step, handle: u32, within: bool) -> Seen
    ensures { result ≡ seen_of (traversals handle within (view_step step.now)) }
{
    match step {
        Step::Traverse { handle: by, .. } => seen_by(handle, within, *by),
        Step::Sequence(steps) => seen_in_steps(steps.as_slice(), handle, within),
        Step::Parallel(steps) => seen_in_steps(steps.as_slice(), handle, within),
        Step::Schedule(steps) => seen_in_steps(steps.as_slice(), handle, within),
        Step::Joined { steps, .. } => seen_in_steps(steps.as_slice(), handle, within),
        Step::Select(branches) => seen_in_branches(branches.as_slice(), handle),
        Step::Repeat { body, .. } => seen_in(body, handle, true),
        Step::If { yes, no, .. } => join(seen_in(yes, handle, true), seen_in_other(no, handle)),
        Step::Match { arms, other, .. } => join(
            seen_in_arms(arms.as_slice(), handle),
            seen_in_other(other, handle),
        ),
    }
}

#[cycle(seen)]
fn seen_in_steps(steps: &[Step], handle: u32, within: bool) -> Seen
    ensures { result ≡ seen_of (flat_map (traversals handle within) (map view_step steps.now)) }
{
    let mut seen = Seen::Never;
    for step in steps {
        seen = join(seen, seen_in(step, handle, within));
    }
    seen
}

#[cycle(seen)]
fn seen_in_branches(branches: &[Branch], handle: u32) -> Seen
    ensures { result ≡ seen_of (flat_map (traversals_of_branch handle) (map view_branch branches.now)) }
{
    let mut seen = Seen::Never;
    for branch in branches {
        seen = join(seen, seen_in(&branch.step, handle, true));
    }
    seen
}

#[cycle(seen)]
fn seen_in_arms(arms: &[Arm], handle: u32) -> Seen
    ensures { result ≡ seen_of (flat_map (traversals_of_arm handle) (map view_arm arms.now)) }
{
    let mut seen = Seen::Never;
    for arm in arms {
        seen = join(seen, seen_in(&arm.step, handle, true));
    }
    seen
}

#[cycle(seen)]
fn seen_in_other(other: &Option<Box<Step>>, handle: u32) -> Seen
    ensures { result ≡ seen_of (traversals_of_maybe handle (maybe_step other.now)) }
{
    match other {
        Some(step) => seen_in(step, handle, true),
        None => Seen::Never,
    }
}

/// Whether the steps traverse the handle's action exactly once, and in no conditional step.
pub fn is_steady(steps: &[Step], handle: u32) -> bool
    ensures { IsTrue result ↔ IsSteady handle (map view_step steps.now) }
{
    seen_in_steps(steps, handle, false) == Seen::Once
}
