// Which binds of an activity are sound.
ghost use Rattle.std.specs.Prelude.{◌≡◌, IsTrue, ◌↔◌, All, AllPairs, Option};
ghost use Rattle.std.specs.Option.{IsSomeAnd};
ghost use Rattle.pst_model.specs.declared.action.Reference.{Reference};
ghost use Rattle.pst_model.specs.ModelView.{view_model, view_activity};
ghost use Rattle.pst_model.specs.SoundActivity.{reference_of, AreEnds, IsSoundTie, IsStreamTie, AreTiesApart};

use pst_model::{Activity, Model, ObjectKind, Reference, Tie};
use pst_sound_parts::{handle_type, is_of_kind, is_steady};

// The reference of that number of a handle's action.
fn reference_of(model: &Model, handles: &[u32], handle: u32, number: u32) -> Option<Reference>
    ensures { result ≡ reference_of (view_model model.now) handles.now handle number }
{
    let action = handle_type(model, handles, handle)?;
    action.references.get(number as usize).copied()
}

// Whether these are an output and an input of one object type.
fn are_ends(output: Option<Reference>, input: Option<Reference>) -> bool
    ensures { IsTrue result ↔ IsSomeAnd output (λ from. IsSomeAnd input (AreEnds from)) }
{
    let Some(output) = output else {
        return false;
    };
    let Some(input) = input else {
        return false;
    };
    output.output && !input.output && output.object == input.object
}

// Whether a bind goes from an output to an input of one object type.
fn has_ends(model: &Model, activity: &Activity, tie: Tie) -> bool
    ensures { IsTrue result ↔ IsSomeAnd (reference_of (view_model model.now) activity.now.handles.items tie.from_handle tie.from_reference) (λ output. IsSomeAnd (reference_of (view_model model.now) activity.now.handles.items tie.to_handle tie.to_reference) (AreEnds output)) }
{
    let handles = activity.handles.as_slice();
    are_ends(
        reference_of(model, handles, tie.from_handle, tie.from_reference),
        reference_of(model, handles, tie.to_handle, tie.to_reference),
    )
}

// Whether a bind is sound.
fn is_sound_tie(model: &Model, activity: &Activity, tie: Tie) -> bool
    ensures { IsTrue result ↔ IsSoundTie (view_model model.now) (view_activity activity.now) tie }
{
    if tie.from_handle == tie.to_handle {
        return false;
    }
    if !is_steady(activity.steps.as_slice(), tie.from_handle) {
        return false;
    }
    if !is_steady(activity.steps.as_slice(), tie.to_handle) {
        return false;
    }
    has_ends(model, activity, tie)
}

// Whether the output of a bind is a stream's.
fn is_stream_tie(model: &Model, activity: &Activity, tie: Tie) -> bool
    ensures { IsTrue result ↔ IsStreamTie (view_model model.now) (view_activity activity.now) tie }
{
    match reference_of(
        model,
        activity.handles.as_slice(),
        tie.from_handle,
        tie.from_reference,
    ) {
        Some(output) => is_of_kind(model.objects.as_slice(), ObjectKind::Stream, output.object),
        None => false,
    }
}

// Whether two binds have no input in common, and no stream output.
fn are_ties_apart(model: &Model, activity: &Activity, first: Tie, second: Tie) -> bool
    ensures { IsTrue result ↔ AreTiesApart (view_model model.now) (view_activity activity.now) first second }
{
    if first.to_handle == second.to_handle && first.to_reference == second.to_reference {
        return false;
    }
    if first.from_handle == second.from_handle && first.from_reference == second.from_reference {
        return !is_stream_tie(model, activity, first);
    }
    true
}

// Whether a bind is apart from each of these.
fn is_tie_apart_from(model: &Model, activity: &Activity, first: Tie, ties: &[Tie]) -> bool
    ensures { IsTrue result ↔ All (AreTiesApart (view_model model.now) (view_activity activity.now) first) ties.now }
{
    ties.iter()
        .all(|second| are_ties_apart(model, activity, first, *second))
}

// Whether each two of the binds are apart.
fn are_all_apart(model: &Model, activity: &Activity, ties: &[Tie]) -> bool
    ensures { IsTrue result ↔ AllPairs (AreTiesApart (view_model model.now) (view_activity activity.now)) ties.now }
{
    for (index, tie) in ties.iter().enumerate() {
        if !is_tie_apart_from(model, activity, *tie, &ties[index + 1..]) {
            return false;
        }
    }
    true
}

// Whether each of the binds is sound.
fn are_all_sound(model: &Model, activity: &Activity, ties: &[Tie]) -> bool
    ensures { IsTrue result ↔ All (IsSoundTie (view_model model.now) (view_activity activity.now)) ties.now }
{
    ties.iter().all(|tie| is_sound_tie(model, activity, *tie))
}

// Whether the binds of an activity are sound, and apart.
pub fn are_sound_ties(model: &Model, activity: &Activity) -> bool
    ensures { IsTrue result ↔ All (IsSoundTie (view_model model.now) (view_activity activity.now)) activity.now.binds.items × AllPairs (AreTiesApart (view_model model.now) (view_activity activity.now)) activity.now.binds.items }
{
    are_all_sound(model, activity, activity.binds.as_slice())
        && are_all_apart(model, activity, activity.binds.as_slice())
}
