//! Lanes that answer from a list.
use pst_target::{Call, CallEnd, ScriptTarget, SureTarget, Target};
use std::alloc::{AllocError, Global};

// The numbers of a text.
fn numbers_of(alloc: Global, text: &str) -> Result<Vec<i64>, AllocError> {
    let mut numbers = Vec::new(alloc);
    for word in text.split_whitespace() {
        numbers.push(word.parse::<i64>().unwrap_or(0))?;
    }
    Ok(numbers)
}

// Writes what a lane answers to a call of a function with arguments.
fn take<T: Target>(
    alloc: Global,
    answer: &mut String,
    lane: &mut T,
    call: &str,
) -> Result<(), AllocError> {
    let (function, arguments) = call.split_once(' ').unwrap_or((call, ""));
    let function = function.parse::<u32>().unwrap_or(0);
    let arguments = numbers_of(alloc, arguments)?;
    match lane.call(function, arguments.as_slice()) {
        Ok(number) => write!(answer, "{number}, "),
        Err(CallEnd::Failed) => answer.push_str("failed, "),
        Err(_) => answer.push_str("no memory, "),
    }
}

// What a lane answers to calls in turn.
fn taken<T: Target>(alloc: Global, lane: &mut T, calls: &str) -> Result<String, AllocError> {
    let mut answer = String::new(alloc);
    for call in calls.split(", ") {
        take(alloc, &mut answer, lane, call)?;
    }
    Ok(answer)
}

// Writes the calls that a lane noted.
fn write_calls(answer: &mut String, calls: &[Call]) -> Result<(), AllocError> {
    answer.push_str("noted")?;
    for call in calls {
        write!(answer, " {}(", call.function)?;
        for argument in call.arguments.as_slice() {
            write!(answer, "{argument} ")?;
        }
        write!(answer, ")={}", call.answer)?;
    }
    Ok(())
}

/// What a lane that doesn't fail answers, and the calls that it noted. The text is its answers by
/// function, ` | ` and calls, each a function and its arguments.
pub fn sure(alloc: Global, text: &str) -> Result<String, AllocError> {
    let (answers, calls) = text.split_once(" | ").unwrap_or((text, ""));
    let mut lane = SureTarget::new(alloc, numbers_of(alloc, answers)?);
    let mut answer = taken(alloc, &mut lane, calls)?;
    write_calls(&mut answer, lane.calls())?;
    Ok(answer)
}

/// The same of a lane whose call of one number fails, which stands in front of all; 0 for none.
pub fn script(alloc: Global, text: &str) -> Result<String, AllocError> {
    let (failing, rest) = text.split_once(" | ").unwrap_or((text, ""));
    let (answers, calls) = rest.split_once(" | ").unwrap_or((rest, ""));
    let failing = failing.parse::<u64>().unwrap_or(0);
    let mut lane = ScriptTarget::new(alloc, numbers_of(alloc, answers)?, failing);
    let mut answer = taken(alloc, &mut lane, calls)?;
    write_calls(&mut answer, lane.calls())?;
    Ok(answer)
}
