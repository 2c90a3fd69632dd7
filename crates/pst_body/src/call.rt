//! Calls of functions of the lane.
ghost use Rattle.std.specs.Prelude.{◌≡◌, ◌<◌, ◌≤◌, ◌+◌, [], ℤ, List, length, map, slice_get, All, Option, Some, None, IsSome, MatchResult};
ghost use Rattle.pst_model.specs.Limits.{most_parameters};
ghost use Rattle.pst_model.specs.ConstraintTree.{view_constraint};
ghost use Rattle.pst_model.specs.ModelView.{view_model, view_function, view_source};
ghost use Rattle.pst_legal.specs.Body.{State, Outcome, Traps, within as within_of, answered, tested as tested_of, call as call_of, source as source_of, value_now};
ghost use Rattle.pst_body.specs.Sites.{place_of};
ghost use Rattle.pst_body.specs.Stores.{state_of};
ghost use Rattle.pst_body.specs.Doing.{Gave};
ghost use Rattle.pst_body.specs.Ready.{CanEvaluate, CanCall, CanGet};
ghost use Rattle.pst_body.specs.Passing.{Passed, PassedOne};

use crate::ending::BodyEnd;
use crate::memory::Memory;
use crate::site::Site;
use crate::turns::Turns;
use pst_expr::Span;
use pst_model::{Constraint, Function, Model, Source};
use pst_target::{CallEnd, Target};

/// The value of an expression; where it has none the body traps.
pub(crate) fn read(
    site: &Site<'_>,
    turns: &Turns<'_>,
    memory: &mut Memory,
    constraint: &Constraint,
) -> Result<i64, BodyEnd>
    requires { CanEvaluate memory.old.room (view_constraint constraint.now) }
    ensures value { MatchResult result
        (λ v. value_now (place_of site.now turns.now) (state_of memory.old []) (view_constraint constraint.now) ≡ Some v)
        (λ end. (value_now (place_of site.now turns.now) (state_of memory.old []) (view_constraint constraint.now) ≡ None) × (end ≡ BodyEnd.Trap 1)) }
    ensures same { memory.new ≡ memory.old }
{
    match memory.value(site, turns, constraint) {
        Some(value) => Ok(value),
        None => Err(BodyEnd::Trap { kind: 1 }),
    }
}

/// Tests a value against a range.
pub(crate) fn test_range(range: Span, value: i64) -> Result<(), BodyEnd>
    ensures { MatchResult result
        (λ _. (state : State) (go : Outcome) → within_of state range value go ≡ go)
        (λ end. (end ≡ BodyEnd.Trap 2) × ((state : State) (go : Outcome) → within_of state range value go ≡ Traps 2 state.left)) }
{
    if value < range.low || value > range.high {
        return Err(BodyEnd::Trap { kind: 2 });
    }
    Ok(())
}

/// Tests the answer of a function against its range, if it has one.
fn test_answer(range: Option<Span>, answer: i64) -> Result<(), BodyEnd>
    ensures { MatchResult result
        (λ _. (state : State) (go : Outcome) → tested_of range answer state go ≡ go)
        (λ end. (end ≡ BodyEnd.Trap 2) × ((state : State) (go : Outcome) → tested_of range answer state go ≡ Traps 2 state.left)) }
{
    match range {
        Some(range) => test_range(range, answer),
        None => Ok(()),
    }
}

/// Evaluates the next argument and tests it.
fn pass_argument(
    site: &Site<'_>,
    turns: &Turns<'_>,
    memory: &mut Memory,
    argument: &Constraint,
    range: Span,
) -> Result<(), BodyEnd>
    requires ready { CanEvaluate memory.old.room (view_constraint argument.now) }
    requires few { length memory.old.arguments < most_parameters }
    ensures { PassedOne (place_of site.now turns.now) (view_constraint argument.now) range memory.old memory.new result }
{
    let value = read(site, turns, memory, argument)?;
    test_range(range, value)?;
    memory.add_argument(value);
    Ok(())
}

/// Evaluates the arguments of a call from left to right, each tested against its parameter's range before the next.
fn pass_arguments(
    site: &Site<'_>,
    turns: &Turns<'_>,
    memory: &mut Memory,
    arguments: &[Constraint],
    ranges: &[Span],
) -> Result<(), BodyEnd>
    requires many { length arguments.now ≡ length ranges.now }
    requires few { length arguments.now ≤ most_parameters }
    requires each { All (CanEvaluate memory.old.room) (map view_constraint arguments.now) }
    ensures { Passed (place_of site.now turns.now) (map view_constraint arguments.now) ranges.now memory.old memory.new result }
{
    memory.clear_arguments();
    for i in 0..arguments.len() {
        pass_argument(site, turns, memory, &arguments[i], ranges[i])?;
    }
    Ok(())
}

/// Calls a function of the lane with the arguments that were passed.
fn ask<T: Target>(memory: &mut Memory, lane: &mut T, function: u32) -> Result<i64, BodyEnd>
    requires { memory.old.calls < memory.old.count }
    ensures { Gave (λ go state. answered state function memory.old.arguments state.left go) memory.old memory.new (T.calls lane.old) (T.calls lane.new) (T.faults lane.old) (T.faults lane.new) result }
{
    let call = memory.calls() + 1;
    match lane.call(function, memory.arguments()) {
        Ok(answer) => {
            memory.count_call();
            Ok(answer)
        }
        Err(CallEnd::Failed) => Err(BodyEnd::Fault { call }),
        Err(CallEnd::NoMemory) => Err(BodyEnd::NoMemory),
    }
}

/// The function of that number.
fn function_at<'a>(model: &'a Model, function: u32) -> &'a Function
    requires { IsSome (slice_get (map view_function model.now.functions.items) function) }
    ensures { slice_get (map view_function model.now.functions.items) function ≡ Some (view_function result.now) }
{
    match model.functions.get(function as usize) {
        Some(found) => found,
        None => unreachable!(),
    }
}

/// Makes a call, and tests its answer.
pub(crate) fn call<T: Target>(
    site: &Site<'_>,
    turns: &Turns<'_>,
    memory: &mut Memory,
    lane: &mut T,
    function: u32,
    arguments: &[Constraint],
) -> Result<i64, BodyEnd>
    requires ready { CanCall (view_model site.now.model.now) memory.old.room function (map view_constraint arguments.now) }
    requires few { memory.old.calls < memory.old.count }
    ensures { Gave (λ go state. call_of (place_of site.now turns.now) state function (map view_constraint arguments.now) go) memory.old memory.new (T.calls lane.old) (T.calls lane.new) (T.faults lane.old) (T.faults lane.new) result }
{
    let found = function_at(site.model, function);
    pass_arguments(site, turns, memory, arguments, found.parameters.as_slice())?;
    let answer = ask(memory, lane, function)?;
    test_answer(found.answer, answer)?;
    Ok(answer)
}

/// The value that a local is set to.
pub(crate) fn value_from<T: Target>(
    site: &Site<'_>,
    turns: &Turns<'_>,
    memory: &mut Memory,
    lane: &mut T,
    source: &Source,
) -> Result<i64, BodyEnd>
    requires ready { CanGet (view_model site.now.model.now) memory.old.room (view_source source.now) }
    requires few { memory.old.calls < memory.old.count }
    ensures { Gave (λ go state. source_of (place_of site.now turns.now) state (view_source source.now) go) memory.old memory.new (T.calls lane.old) (T.calls lane.new) (T.faults lane.old) (T.faults lane.new) result }
{
    match source {
        Source::Value(expression) => read(site, turns, memory, expression),
        Source::Answer {
            function,
            arguments,
        } => call(site, turns, memory, lane, *function, arguments.as_slice()),
    }
}
