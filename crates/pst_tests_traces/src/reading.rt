//! Traces that are read from texts.

use crate::spelled::bytes_of;
use pst_base::NoMemory;
use pst_scen::Event;
use pst_trace_lines::LastLine;
use pst_trace_reader::{TraceEnd, TraceText, read_trace};
use std::alloc::Global;

// An event: the action and the lane of a start, with `+` where more of its block follow, or an end.
fn add_event(line: &mut String, event: Event) -> Result<(), NoMemory> {
    match event {
        Event::Start { act, lane, more } => {
            write!(line, " {act}:{lane}")?;
            if more {
                line.push_str("+")?;
            }
        }
        Event::End { act } => write!(line, " end {act}")?,
    }
    Ok(())
}

// The last line.
fn add_last(line: &mut String, last: LastLine) -> Result<(), NoMemory> {
    match last {
        LastLine::Done { actions } => write!(line, " done {actions}")?,
        LastLine::Fault { lane, action, call } => write!(line, " fault {lane} {action} {call}")?,
        LastLine::Trap { lane, action, kind } => write!(line, " trap {lane} {action} {kind}")?,
    }
    Ok(())
}

// What a trace says: its format, the lines of its header, its events and its last line.
fn said_of(alloc: Global, trace: &TraceText) -> Result<String, NoMemory> {
    let mut line = String::new(alloc);
    let format = trace.format;
    write!(line, "{format} |")?;
    for text in &trace.header {
        line.push_str(" / ")?;
        line.push_str(text.as_str())?;
    }
    line.push_str(" |")?;
    for event in trace.events.as_slice() {
        add_event(&mut line, *event)?;
    }
    line.push_str(" |")?;
    add_last(&mut line, trace.last)?;
    Ok(line)
}

/// What is read of a text, or the number of its first bad line.
pub fn read_of(alloc: Global, text: &str) -> Result<String, NoMemory> {
    let bytes = bytes_of(alloc, text)?;
    if bytes.len() > 1 << 20 {
        return Ok(String::from_str(alloc, "too long")?);
    }
    match read_trace(alloc, bytes.as_slice()) {
        Ok(trace) => said_of(alloc, &trace),
        Err(TraceEnd::Bad { line }) => Ok(format!(in alloc; "bad {line}")?),
        Err(TraceEnd::NoMemory) => Err(NoMemory),
    }
}
