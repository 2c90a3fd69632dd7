// Which bodies are sound.
ghost use Rattle.std.specs.Prelude.{◌≡◌, IsSome, IsTrue, ◌↔◌, All, IfSome, map, slice_get, length, option_map};
ghost use Rattle.std.specs.List.{flat_map};
ghost use Rattle.std.specs.Option.{IsSomeAnd};
ghost use Rattle.pst_model.specs.ConstraintTree.{view_constraint};
ghost use Rattle.pst_model.specs.ModelView.{view_model, view_action, view_function, view_source, view_body_step};
ghost use Rattle.pst_sound_parts.specs.Depth.{depth};
ghost use Rattle.pst_model.specs.SoundBody.{locals_in, IsBodyExpression, IsCall, IsSource, IsSoundBodyStep, EachBodyStep, EachBodyPart, IsSoundBody};
ghost use Rattle.pst_sound_parts.specs.Numbered.{behind_local, behind_locals};

use crate::repeats::Repeats;
use crate::site::{BodySite, are_sound_there, is_sound_there};
use pst_model::{ActionType, BodyStep, Constraint, Function, Model, Source};

// The most locals of a body.
const MOST_LOCALS: u32 = 64;

// The next number behind a local, none where it doesn't have the next number or is one too many.
fn behind_local(next: Option<u32>, local: u32) -> Option<u32>
    ensures { result ≡ behind_local next local }
{
    match next {
        Some(number) if local == number && number < MOST_LOCALS => Some(number + 1),
        _ => None,
    }
}

// The next number behind the locals of a step.
#[cycle(locals)]
fn behind_step(step: &BodyStep, next: Option<u32>) -> Option<u32>
    ensures { result ≡ behind_locals next (locals_in (view_body_step step.now)) }
{
    match step {
        BodyStep::Declare { local, .. } => behind_local(next, *local),
        BodyStep::Assign { .. } => next,
        BodyStep::Call { .. } => next,
        BodyStep::If { yes, no, .. } => behind_steps(
            no.as_slice(),
            behind_steps(yes.as_slice(), next),
        ),
        BodyStep::Repeat { body, .. } => behind_steps(body.as_slice(), next),
    }
}

// The next number behind the locals of steps; none where they aren't numbered in order, or are too many.
#[cycle(locals)]
fn behind_steps(steps: &[BodyStep], next: Option<u32>) -> Option<u32>
    ensures { result ≡ behind_locals next (flat_map locals_in (map view_body_step steps.now)) }
{
    let mut last = next;
    for step in steps {
        last = behind_step(step, last);
    }
    last
}

// Whether an expression of a body is sound.
fn is_expression(
    model: &Model,
    action: &ActionType,
    locals: u32,
    repeats: &Repeats,
    constraint: &Constraint,
) -> bool
    ensures { IsTrue result ↔ IsBodyExpression (view_model model.now) (view_action action.now) locals (depth repeats.now) (view_constraint constraint.now) }
{
    let site = BodySite {
        objects: model.objects.as_slice(),
        action,
        locals,
        repeats,
    };
    is_sound_there(&site, constraint)
}

// Whether the arguments of a call are sound, one for each parameter.
fn is_call(
    model: &Model,
    action: &ActionType,
    locals: u32,
    repeats: &Repeats,
    arguments: &[Constraint],
    function: &Function,
) -> bool
    ensures { IsTrue result ↔ IsCall (view_model model.now) (view_action action.now) locals (depth repeats.now) (map view_constraint arguments.now) (view_function function.now) }
{
    if arguments.len() != function.parameters.len() {
        return false;
    }
    let site = BodySite {
        objects: model.objects.as_slice(),
        action,
        locals,
        repeats,
    };
    are_sound_there(&site, arguments)
}

// Whether a call of the function of that number is sound.
fn is_call_of(
    model: &Model,
    action: &ActionType,
    locals: u32,
    repeats: &Repeats,
    arguments: &[Constraint],
    function: u32,
) -> bool
    ensures { IsTrue result ↔ IsSomeAnd (slice_get (map view_function model.now.functions.items) function) (IsCall (view_model model.now) (view_action action.now) locals (depth repeats.now) (map view_constraint arguments.now)) }
{
    match model.functions.get(function as usize) {
        Some(found) => is_call(model, action, locals, repeats, arguments, found),
        None => false,
    }
}

// Whether a call is sound of the function of that number, which gives an answer.
fn is_answer_of(
    model: &Model,
    action: &ActionType,
    locals: u32,
    repeats: &Repeats,
    arguments: &[Constraint],
    function: u32,
) -> bool
    ensures { IsTrue result ↔ IsSomeAnd (slice_get (map view_function model.now.functions.items) function) (λ f. IsCall (view_model model.now) (view_action action.now) locals (depth repeats.now) (map view_constraint arguments.now) f × IsSome f.answer) }
{
    match model.functions.get(function as usize) {
        Some(found) => {
            found.answer.is_some() && is_call(model, action, locals, repeats, arguments, found)
        }
        None => false,
    }
}

// Whether what a local is set to is sound.
fn is_source(
    model: &Model,
    action: &ActionType,
    locals: u32,
    repeats: &Repeats,
    source: &Source,
) -> bool
    ensures { IsTrue result ↔ IsSource (view_model model.now) (view_action action.now) locals (depth repeats.now) (view_source source.now) }
{
    match source {
        Source::Value(expression) => is_expression(model, action, locals, repeats, expression),
        Source::Answer {
            function,
            arguments,
        } => is_answer_of(
            model,
            action,
            locals,
            repeats,
            arguments.as_slice(),
            *function,
        ),
    }
}

// Whether the first value of a local, if there is one, is sound.
fn is_first_value(
    model: &Model,
    action: &ActionType,
    locals: u32,
    repeats: &Repeats,
    value: &Option<Source>,
) -> bool
    ensures { IsTrue result ↔ IfSome (option_map view_source value.now) (IsSource (view_model model.now) (view_action action.now) locals (depth repeats.now)) }
{
    match value {
        Some(source) => is_source(model, action, locals, repeats, source),
        None => true,
    }
}

// Whether a step of an action's body is sound, whatever its parts are.
fn is_sound_step(
    model: &Model,
    action: &ActionType,
    locals: u32,
    repeats: &Repeats,
    step: &BodyStep,
) -> bool
    ensures { IsTrue result ↔ IsSoundBodyStep (view_model model.now) (view_action action.now) locals (depth repeats.now) (view_body_step step.now) }
{
    match step {
        BodyStep::Declare { value, .. } => is_first_value(model, action, locals, repeats, value),
        BodyStep::Assign { local, value } => {
            *local < locals && is_source(model, action, locals, repeats, value)
        }
        BodyStep::Call {
            function,
            arguments,
        } => is_call_of(
            model,
            action,
            locals,
            repeats,
            arguments.as_slice(),
            *function,
        ),
        BodyStep::If { condition, .. } => is_expression(model, action, locals, repeats, condition),
        BodyStep::Repeat { count, .. } => is_expression(model, action, locals, repeats, count),
    }
}

// Whether each step in a step, itself included, is sound.
#[cycle(steps)]
fn is_sound_whole(
    step: &BodyStep,
    model: &Model,
    action: &ActionType,
    locals: u32,
    repeats: &Repeats,
) -> bool
    ensures { IsTrue result ↔ EachBodyStep (IsSoundBodyStep (view_model model.now) (view_action action.now) locals) (depth repeats.now) (view_body_step step.now) }
{
    is_sound_step(model, action, locals, repeats, step)
        && has_sound_parts(step, model, action, locals, repeats)
}

// Whether each step in the parts of a step is sound.
#[cycle(steps)]
fn has_sound_parts(
    step: &BodyStep,
    model: &Model,
    action: &ActionType,
    locals: u32,
    repeats: &Repeats,
) -> bool
    ensures { IsTrue result ↔ EachBodyPart (IsSoundBodyStep (view_model model.now) (view_action action.now) locals) (depth repeats.now) (view_body_step step.now) }
{
    match step {
        BodyStep::Declare { .. } => true,
        BodyStep::Assign { .. } => true,
        BodyStep::Call { .. } => true,
        BodyStep::If { yes, no, .. } => {
            are_sound_steps(yes.as_slice(), model, action, locals, repeats)
                && are_sound_steps(no.as_slice(), model, action, locals, repeats)
        }
        BodyStep::Repeat { body, .. } => are_sound_steps(
            body.as_slice(),
            model,
            action,
            locals,
            &Repeats::Within(&*repeats),
        ),
    }
}

// Whether each step in these is sound.
#[cycle(steps)]
fn are_sound_steps(
    steps: &[BodyStep],
    model: &Model,
    action: &ActionType,
    locals: u32,
    repeats: &Repeats,
) -> bool
    ensures { IsTrue result ↔ All (EachBodyStep (IsSoundBodyStep (view_model model.now) (view_action action.now) locals) (depth repeats.now)) (map view_body_step steps.now) }
{
    for step in steps {
        if !is_sound_whole(step, model, action, locals, repeats) {
            return false;
        }
    }
    true
}

/// Whether the body of an action is sound.
pub fn is_sound_body(model: &Model, action: &ActionType, body: &[BodyStep]) -> bool
    ensures { IsTrue result ↔ IsSoundBody (view_model model.now) (view_action action.now) (map view_body_step body.now) }
{
    match behind_steps(body, Some(0)) {
        Some(locals) => are_sound_steps(body, model, action, locals, &Repeats::Nothing),
        None => false,
    }
}
