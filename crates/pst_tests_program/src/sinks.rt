//! Sinks in memory.
use crate::shelves::{numbers_of, write_bytes};
use pst_io::{Failed, MemorySink, Sink, SureSink, write_all};
use std::alloc::{AllocError, Global};

// Writes what one write of a text took.
fn write<K: Sink>(answer: &mut String, sink: &mut K, text: &str) -> Result<(), AllocError> {
    if sink.reserve(text.len()).is_err() {
        return answer.push_str("no memory");
    }
    match sink.write(text.as_bytes()) {
        Ok(count) => write!(answer, "{count}"),
        Err(Failed) => answer.push_str("failed"),
    }
}

// Writes how writing a whole text ended.
fn whole<K: Sink>(answer: &mut String, sink: &mut K, text: &str) -> Result<(), AllocError> {
    if sink.reserve(text.len()).is_err() {
        return answer.push_str("no memory");
    }
    match write_all(sink, text.as_bytes()) {
        Ok(()) => answer.push_str("done"),
        Err(Failed) => answer.push_str("failed"),
    }
}

// What a sink answers to commands in turn: `write TEXT`, or `all TEXT`.
fn taken<K: Sink>(alloc: Global, sink: &mut K, commands: &str) -> Result<String, AllocError> {
    let mut answer = String::new(alloc);
    for command in commands.split(", ") {
        let (verb, text) = command.split_once(' ').unwrap_or((command, ""));
        match verb {
            "write" => write(&mut answer, sink, text)?,
            "all" => whole(&mut answer, sink, text)?,
            _ => answer.push_str("no such command")?,
        }
        answer.push_str(", ")?;
    }
    Ok(answer)
}

/// What a sink that doesn't fail answers, and then what was written. The text is the most bytes that
/// one write takes, ` | ` and commands.
pub fn sure(alloc: Global, text: &str) -> Result<String, AllocError> {
    let (most, commands) = text.split_once(" | ").unwrap_or((text, ""));
    let most = most.parse::<usize>().unwrap_or(0).max(1);
    let mut sink = SureSink::new(alloc, most);
    let mut answer = taken(alloc, &mut sink, commands)?;
    write_bytes(&mut answer, sink.bytes())?;
    Ok(answer)
}

/// The same of a sink of which some calls fail, whose numbers stand between another ` | ` and the
/// commands.
pub fn memory(alloc: Global, text: &str) -> Result<String, AllocError> {
    let (most, rest) = text.split_once(" | ").unwrap_or((text, ""));
    let (failing, commands) = rest.split_once(" | ").unwrap_or((rest, ""));
    let most = most.parse::<usize>().unwrap_or(0).max(1);
    let mut sink = MemorySink::new(alloc, most, numbers_of(alloc, failing)?);
    let mut answer = taken(alloc, &mut sink, commands)?;
    write_bytes(&mut answer, sink.bytes())?;
    Ok(answer)
}
