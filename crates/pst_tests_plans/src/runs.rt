//! Runs of scenarios with their plans, on several lanes.
ghost use Rattle.pst_scen.specs.Plans.{IsPlanOf};
ghost use Rattle.pst_order.specs.Built.{IsBuilt};

use pst_book::{Book, Opened};
use pst_scen::{Event, Plan, Scenario};
use pst_tests_scenarios::number;
use std::alloc::{AllocError, Global};

// Ends the least running action.
fn end_least(book: &mut Book<'_>, count: u32) {
    for act in 0..count {
        if book.end(act) {
            return;
        }
    }
}

// Starts all groups that can start, and then ends the least running action, until all have ended.
fn drive(book: &mut Book<'_>, count: u32) {
    for _ in 0..count {
        for _ in 0..count {
            let _opened = book.open();
        }
        end_least(book, count);
    }
}

// Ends each lane's action in its turn, until all have ended.
fn drive_by_lanes(book: &mut Book<'_>, count: u32) {
    for _ in 0..count {
        for lane in 0..4 {
            let _opened = book.open();
            if let Some(act) = book.running_on(lane) {
                book.end(act);
            }
        }
    }
}

/// Writes the events of a trace: the start of an action on a lane, with `+` where more of its group
/// start behind it, or the end of an action.
pub fn write_trace(answer: &mut String, trace: &[Event]) -> Result<(), AllocError> {
    for event in trace {
        match event {
            Event::Start { act, lane, more } => {
                let sign = if *more { "+" } else { "" };
                write!(answer, " start{sign} {act} {lane}")?;
            }
            Event::End { act } => write!(answer, " end {act}")?,
        }
    }
    Ok(())
}

// Writes what a book answers to a command: `lanes`, `open`, `end ACTION`, `on LANE`, `finished` or
// `trace`.
fn take(answer: &mut String, book: &mut Book<'_>, command: &str) -> Result<(), AllocError> {
    let (verb, word) = command
        .trim()
        .split_once(' ')
        .unwrap_or((command.trim(), ""));
    match verb {
        "lanes" => write!(answer, " {}", book.lanes()),
        "open" => match book.open() {
            Some(Opened { first, count }) => write!(answer, " {first}+{count}"),
            None => answer.push_str(" none"),
        },
        "end" => write!(answer, " {}", book.end(number(word))),
        "on" => match book.running_on(number(word)) {
            Some(act) => write!(answer, " {act}"),
            None => answer.push_str(" none"),
        },
        "finished" => write!(answer, " {}", book.finished()),
        _ => write_trace(answer, book.trace()),
    }
}

// Writes what a book answers to commands in turn.
fn take_all(answer: &mut String, book: &mut Book<'_>, commands: &str) -> Result<(), AllocError> {
    for command in commands.split(',') {
        take(answer, book, command)?;
    }
    Ok(())
}

/// Answers these calls on a scenario and its plan, on so many lanes:
///
/// - `run`: the trace where all groups that can start do, and then the least running action ends.
/// - `events`: the number of events on four lanes where each lane's action ends in its turn.
/// - `book`: what the book answers to the commands.
pub fn answer(
    alloc: Global,
    scenario: &Scenario,
    plan: &Plan,
    call: &str,
    lanes: u32,
    commands: &str,
) -> Result<String, AllocError>
    requires built { IsBuilt scenario.now }
    requires planned { IsPlanOf scenario.now plan.now }
{
    if lanes < 1 || lanes > 16 || plan.width() > lanes {
        return String::from_str(alloc, "too few lanes");
    }
    let Ok(mut book) = Book::new(alloc, scenario, plan, lanes) else {
        return String::from_str(alloc, "no memory");
    };
    let mut answer = String::from_str(alloc, call)?;
    match call {
        "run" => {
            drive(&mut book, plan.len());
            write_trace(&mut answer, book.trace())?;
        }
        "events" => {
            drive_by_lanes(&mut book, plan.len());
            write!(
                answer,
                " {} finished {}",
                book.trace().len(),
                book.finished()
            )?;
        }
        _ => take_all(&mut answer, &mut book, commands)?,
    }
    Ok(answer)
}
