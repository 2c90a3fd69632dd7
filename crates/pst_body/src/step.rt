//! Steps of bodies.
ghost use Rattle.std.specs.Prelude.{◌≡◌, ◌<◌, ◌<ℤ◌, pos, All, IfSome, MatchResult, length, map, option_map, slice_get};
ghost use Rattle.pst_expr.specs.Value.{is_false};
ghost use Rattle.pst_model.specs.ConstraintTree.{view_constraint};
ghost use Rattle.pst_model.specs.ModelView.{view_model, view_source, view_body_step};
ghost use Rattle.pst_legal.specs.Body.{run_step as run_step_of, run_steps as run_steps_of, call as call_of, source as source_of, started, assigned, stored};
ghost use Rattle.pst_body.specs.Sites.{place_of};
ghost use Rattle.pst_body.specs.Doing.{Did};
ghost use Rattle.pst_body.specs.Ready.{CanEvaluate, CanCall, CanGet, CanRun};
ghost use Rattle.pst_body.specs.Steps.{begun, turns_of, Stored, Decided, Counted, dropped};

use crate::call::{call, read, test_range, value_from};
use crate::ending::BodyEnd;
use crate::memory::Memory;
use crate::site::Site;
use crate::turns::Turns;
use pst_expr::Span;
use pst_model::{BodyStep, Constraint, Source};
use pst_target::Target;

/// Sets a local to a value, if it is in the range.
fn store(memory: &mut Memory, local: u32, range: Span, value: i64) -> Result<(), BodyEnd>
    ensures { Stored local range value memory.old memory.new result }
{
    test_range(range, value)?;
    memory.set_local(local, value);
    Ok(())
}

/// Sets a local to a value of its range.
fn set<T: Target>(
    site: &Site<'_>,
    turns: &Turns<'_>,
    memory: &mut Memory,
    lane: &mut T,
    local: u32,
    range: Span,
    source: &Source,
) -> Result<(), BodyEnd>
    requires ready { CanGet (view_model site.now.model.now) memory.old.room (view_source source.now) }
    requires few { memory.old.calls < memory.old.count }
    ensures { Did (λ state. source_of (place_of site.now turns.now) state (view_source source.now) (stored local range)) memory.old memory.new (T.calls lane.old) (T.calls lane.new) (T.faults lane.old) (T.faults lane.new) result }
{
    let value = value_from(site, turns, memory, lane, source)?;
    store(memory, local, range, value)
}

/// Starts a local, at 0 where it has no first value.
fn declare<T: Target>(
    site: &Site<'_>,
    turns: &Turns<'_>,
    memory: &mut Memory,
    lane: &mut T,
    local: u32,
    range: Span,
    value: &Option<Source>,
) -> Result<(), BodyEnd>
    requires ready { IfSome (option_map view_source value.now) (CanGet (view_model site.now.model.now) memory.old.room) }
    requires few { memory.old.calls < memory.old.count }
    ensures { Did (λ state. started (place_of site.now turns.now) state local range (option_map view_source value.now)) memory.old memory.new (T.calls lane.old) (T.calls lane.new) (T.faults lane.old) (T.faults lane.new) result }
{
    match value {
        Some(source) => set(site, turns, memory, lane, local, range, source),
        None => {
            memory.set_local(local, 0);
            Ok(())
        }
    }
}

/// Assigns to a local.
fn assign<T: Target>(
    site: &Site<'_>,
    turns: &Turns<'_>,
    memory: &mut Memory,
    lane: &mut T,
    local: u32,
    source: &Source,
) -> Result<(), BodyEnd>
    requires inside { local < length site.now.ranges.now }
    requires ready { CanGet (view_model site.now.model.now) memory.old.room (view_source source.now) }
    requires few { memory.old.calls < memory.old.count }
    ensures { Did (λ state. assigned (place_of site.now turns.now) state local (slice_get site.now.ranges.now local) (view_source source.now)) memory.old memory.new (T.calls lane.old) (T.calls lane.new) (T.faults lane.old) (T.faults lane.new) result }
{
    let range = site.ranges[local as usize];
    set(site, turns, memory, lane, local, range, source)
}

/// Makes a call whose answer is dropped.
fn call_only<T: Target>(
    site: &Site<'_>,
    turns: &Turns<'_>,
    memory: &mut Memory,
    lane: &mut T,
    function: u32,
    arguments: &[Constraint],
) -> Result<(), BodyEnd>
    requires ready { CanCall (view_model site.now.model.now) memory.old.room function (map view_constraint arguments.now) }
    requires few { memory.old.calls < memory.old.count }
    ensures { Did (λ state. call_of (place_of site.now turns.now) state function (map view_constraint arguments.now) dropped) memory.old memory.new (T.calls lane.old) (T.calls lane.new) (T.faults lane.old) (T.faults lane.new) result }
{
    let _answer = call(site, turns, memory, lane, function, arguments)?;
    Ok(())
}

/// Whether a number is 0.
fn is_zero(value: i64) -> bool
    ensures { result ≡ is_false value }
{
    value == 0
}

/// Whether a condition fails.
fn fails(
    site: &Site<'_>,
    turns: &Turns<'_>,
    memory: &mut Memory,
    condition: &Constraint,
) -> Result<bool, BodyEnd>
    requires { CanEvaluate memory.old.room (view_constraint condition.now) }
    ensures value { Decided (place_of site.now turns.now) (view_constraint condition.now) memory.old result }
    ensures same { memory.new ≡ memory.old }
{
    let value = read(site, turns, memory, condition)?;
    Ok(is_zero(value))
}

/// How many turns a count stands for.
fn turns_in(count: i64) -> Result<u64, BodyEnd>
    ensures { MatchResult result (λ n. count ≡ pos n) (λ end. (count <ℤ pos 0) × (end ≡ BodyEnd.Trap 1)) }
{
    if count < 0 {
        return Err(BodyEnd::Trap { kind: 1 });
    }
    Ok(count as u64)
}

/// How many turns there are.
fn count_of(
    site: &Site<'_>,
    turns: &Turns<'_>,
    memory: &mut Memory,
    count: &Constraint,
) -> Result<u64, BodyEnd>
    requires { CanEvaluate memory.old.room (view_constraint count.now) }
    ensures value { Counted (place_of site.now turns.now) (view_constraint count.now) memory.old result }
    ensures same { memory.new ≡ memory.old }
{
    let value = read(site, turns, memory, count)?;
    turns_in(value)
}

/// Runs a step.
#[cycle(steps)]
fn run_step<T: Target>(
    step: &BodyStep,
    site: &Site<'_>,
    turns: &Turns<'_>,
    memory: &mut Memory,
    lane: &mut T,
) -> Result<(), BodyEnd>
    requires { CanRun (view_model site.now.model.now) (length site.now.ranges.now) memory.old.room (view_body_step step.now) }
    ensures { Did (run_step_of (place_of site.now turns.now) (view_body_step step.now)) memory.old memory.new (T.calls lane.old) (T.calls lane.new) (T.faults lane.old) (T.faults lane.new) result }
{
    memory.tick()?;
    run_begun(step, site, turns, memory, lane)
}

/// Runs a step that has been counted.
#[cycle(steps)]
fn run_begun<T: Target>(
    step: &BodyStep,
    site: &Site<'_>,
    turns: &Turns<'_>,
    memory: &mut Memory,
    lane: &mut T,
) -> Result<(), BodyEnd>
    requires ready { CanRun (view_model site.now.model.now) (length site.now.ranges.now) memory.old.room (view_body_step step.now) }
    requires few { memory.old.calls < memory.old.count }
    ensures { Did (begun (place_of site.now turns.now) (view_body_step step.now)) memory.old memory.new (T.calls lane.old) (T.calls lane.new) (T.faults lane.old) (T.faults lane.new) result }
{
    match step {
        BodyStep::Declare {
            local,
            range,
            value,
        } => declare(site, turns, memory, lane, *local, *range, value),
        BodyStep::Assign { local, value } => assign(site, turns, memory, lane, *local, value),
        BodyStep::Call {
            function,
            arguments,
        } => call_only(site, turns, memory, lane, *function, arguments.as_slice()),
        BodyStep::If { condition, yes, no } => {
            let when_true = yes.as_slice();
            let when_false = no.as_slice();
            let failed = fails(site, turns, memory, condition)?;
            if failed {
                run_steps(when_false, site, turns, memory, lane)
            } else {
                run_steps(when_true, site, turns, memory, lane)
            }
        }
        BodyStep::Repeat { count, body } => {
            let steps = body.as_slice();
            let number = count_of(site, turns, memory, count)?;
            run_turns(steps, number, site, turns, memory, lane)
        }
    }
}

/// Runs as many turns of steps.
#[cycle(steps)]
fn run_turns<T: Target>(
    body: &[BodyStep],
    count: u64,
    site: &Site<'_>,
    turns: &Turns<'_>,
    memory: &mut Memory,
    lane: &mut T,
) -> Result<(), BodyEnd>
    requires { All (CanRun (view_model site.now.model.now) (length site.now.ranges.now) memory.old.room) (map view_body_step body.now) }
    ensures { Did (turns_of (place_of site.now turns.now) (map view_body_step body.now) 0 count) memory.old memory.new (T.calls lane.old) (T.calls lane.new) (T.faults lane.old) (T.faults lane.new) result }
{
    let mut left = count;
    let mut index = 0;
    'turns: while left > 0 {
        memory.tick()?;
        run_steps(body, site, &Turns::Within(&*turns, index), memory, lane)?;
        index += 1;
        left -= 1;
    }
    Ok(())
}

/// Runs steps.
#[cycle(steps)]
pub(crate) fn run_steps<T: Target>(
    steps: &[BodyStep],
    site: &Site<'_>,
    turns: &Turns<'_>,
    memory: &mut Memory,
    lane: &mut T,
) -> Result<(), BodyEnd>
    requires { All (CanRun (view_model site.now.model.now) (length site.now.ranges.now) memory.old.room) (map view_body_step steps.now) }
    ensures { Did (run_steps_of (place_of site.now turns.now) (map view_body_step steps.now)) memory.old memory.new (T.calls lane.old) (T.calls lane.new) (T.faults lane.old) (T.faults lane.new) result }
{
    for step in steps {
        run_step(step, site, turns, memory, lane)?;
    }
    Ok(())
}
