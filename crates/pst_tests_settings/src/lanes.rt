//! Several lanes, and whether their calls are those that a trace tells of.
use crate::texts::add_calls;
use pst_target::{Call, ScriptTarget};
use std::alloc::{AllocError, Global};

/// So many lanes, of which the one of that number fails at its call of that number; at call 0 none does.
pub fn lanes_of(
    alloc: Global,
    count: u32,
    failing: u32,
    call: u64,
) -> Result<Vec<ScriptTarget>, AllocError> {
    let mut lanes = Vec::new(alloc);
    for number in 0..count {
        let call = if number == failing { call } else { 0 };
        lanes.push(ScriptTarget::new(alloc, Vec::new(alloc), call))?;
    }
    Ok(lanes)
}

/// Writes the calls of each lane that has any: ` | `, the lane, and its calls.
pub fn add_lanes(text: &mut String, lanes: &[ScriptTarget]) -> Result<(), AllocError> {
    for (number, lane) in lanes.iter().enumerate() {
        if !lane.calls().is_empty() {
            write!(text, " | {number}")?;
            add_calls(text, lane.calls())?;
        }
    }
    Ok(())
}

// Writes the function of each action that starts on the lane in a line of a trace: the body of an
// action calls the function of its number modulo `functions`, once; where that is 0, none.
fn add_started(
    text: &mut String,
    line: &str,
    lane: usize,
    functions: u32,
) -> Result<(), AllocError> {
    let Some(starts) = line.strip_prefix("start ") else {
        return Ok(());
    };
    for start in starts.split(' ') {
        let (action, on) = start.split_once(':').unwrap_or((start, ""));
        if on.parse::<usize>().unwrap_or(usize::MAX) == lane {
            let action = action.parse::<u32>().unwrap_or(0);
            if let Some(function) = action.checked_rem(functions) {
                write!(text, " {function}")?;
            }
        }
    }
    Ok(())
}

// The functions of the actions that start on the lane in a trace, in order.
fn started(alloc: Global, trace: &str, lane: usize, functions: u32) -> Result<String, AllocError> {
    let mut text = String::new(alloc);
    for line in trace.lines() {
        add_started(&mut text, line, lane, functions)?;
    }
    Ok(text)
}

// The functions that were called, in order.
fn called(alloc: Global, calls: &[Call]) -> Result<String, AllocError> {
    let mut text = String::new(alloc);
    for call in calls {
        write!(text, " {}", call.function)?;
    }
    Ok(text)
}

/// How many lanes have other calls than those of the actions that start there in a trace, in order,
/// where the body of an action calls the function of its number modulo `functions`, once; where that is
/// 0, none.
pub fn count_astray(
    alloc: Global,
    trace: &str,
    lanes: &[ScriptTarget],
    functions: u32,
) -> Result<u32, AllocError> {
    let mut astray = 0u32;
    for (number, lane) in lanes.iter().enumerate() {
        let wanted = started(alloc, trace, number, functions)?;
        let found = called(alloc, lane.calls())?;
        if wanted.as_str() != found.as_str() {
            astray = astray.wrapping_add(1);
        }
    }
    Ok(astray)
}
