//! What a body needs before it begins.
ghost use Rattle.std.specs.Prelude.{◌≡◌, ◌≤◌, ◌++◌, ℕ, All, IfSome, OnOk, map, option_map};
ghost use Rattle.std.specs.List.{flat_map};
ghost use Rattle.pst_model.specs.ConstraintTree.{view_constraint};
ghost use Rattle.pst_model.specs.ModelView.{view_source, view_body_step};
ghost use Rattle.pst_legal.specs.Body.{ranges_in};
ghost use Rattle.pst_body.specs.Ready.{HasRoom, HasRoomToGet, HasRoomToRun};

use pst_base::NoMemory;
use pst_expr::Span;
use pst_model::{BodyStep, Constraint, Source};

/// The larger of two numbers.
fn larger(a: usize, b: usize) -> usize
    ensures first { a ≤ result }
    ensures second { b ≤ result }
{
    if a < b { b } else { a }
}

/// The most slots of an expression among these.
fn most_in_all(constraints: &[Constraint]) -> usize
    ensures { (room : ℕ) → result ≤ room → All (HasRoom room) (map view_constraint constraints.now) }
{
    let mut most = 0;
    for constraint in constraints {
        most = larger(most, constraint.slots.len());
    }
    most
}

/// The most slots of an expression of a source.
fn most_in_source(source: &Source) -> usize
    ensures { (room : ℕ) → result ≤ room → HasRoomToGet room (view_source source.now) }
{
    match source {
        Source::Value(expression) => expression.slots.len(),
        Source::Answer { arguments, .. } => most_in_all(arguments.as_slice()),
    }
}

/// The most slots of an expression of a local's first value, if it has one.
fn most_in_first_value(value: &Option<Source>) -> usize
    ensures { (room : ℕ) → result ≤ room → IfSome (option_map view_source value.now) (HasRoomToGet room) }
{
    match value {
        Some(source) => most_in_source(source),
        None => 0,
    }
}

/// The most slots of an expression in a step.
#[cycle(slots)]
fn most_in_step(step: &BodyStep) -> usize
    ensures { (room : ℕ) → result ≤ room → HasRoomToRun room (view_body_step step.now) }
{
    match step {
        BodyStep::Declare { value, .. } => most_in_first_value(value),
        BodyStep::Assign { value, .. } => most_in_source(value),
        BodyStep::Call { arguments, .. } => most_in_all(arguments.as_slice()),
        BodyStep::If { condition, yes, no } => {
            let held = most_in_steps(yes.as_slice());
            let failed = most_in_steps(no.as_slice());
            larger(condition.slots.len(), larger(held, failed))
        }
        BodyStep::Repeat { count, body } => {
            let turned = most_in_steps(body.as_slice());
            larger(count.slots.len(), turned)
        }
    }
}

/// The most slots of an expression in steps.
#[cycle(slots)]
pub(crate) fn most_in_steps(steps: &[BodyStep]) -> usize
    ensures { (room : ℕ) → result ≤ room → All (HasRoomToRun room) (map view_body_step steps.now) }
{
    let mut most = 0;
    for step in steps {
        most = larger(most, most_in_step(step));
    }
    most
}

/// Adds the ranges of the locals that a step declares.
#[cycle(ranges)]
fn add_ranges_of(ranges: &mut Vec<Span>, step: &BodyStep) -> Result<(), NoMemory>
    ensures { OnOk result (ranges.new.items ≡ ranges.old.items ++ ranges_in (view_body_step step.now)) }
{
    match step {
        BodyStep::Declare { range, .. } => {
            ranges.push(*range)?;
            Ok(())
        }
        BodyStep::Assign { .. } => Ok(()),
        BodyStep::Call { .. } => Ok(()),
        BodyStep::If { yes, no, .. } => {
            add_ranges(ranges, yes.as_slice())?;
            add_ranges(ranges, no.as_slice())
        }
        BodyStep::Repeat { body, .. } => add_ranges(ranges, body.as_slice()),
    }
}

/// Adds the ranges of the locals that steps declare, in the order of the text.
#[cycle(ranges)]
pub(crate) fn add_ranges(ranges: &mut Vec<Span>, steps: &[BodyStep]) -> Result<(), NoMemory>
    ensures { OnOk result (ranges.new.items ≡ ranges.old.items ++ flat_map ranges_in (map view_body_step steps.now)) }
{
    for step in steps {
        add_ranges_of(ranges, step)?;
    }
    Ok(())
}
