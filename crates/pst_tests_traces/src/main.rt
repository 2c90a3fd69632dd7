//! The table of texts of traces: what is written of small scenarios and their events, and what is read
//! of texts, or the number of the first bad line, is compared with what was worked out by hand.
//!
//! `stdin` is the table, in the form that `pst_cases` describes.
#![tactic(auto)]

mod models;
mod reading;
mod scenarios;
mod spelled;

use crate::models::model_of;
use crate::reading::read_of;
use crate::scenarios::{events_of, last_of, scenario_of};
use pst_base::{Names, NoMemory};
use pst_cases::{Heading, Score, joined_lines};
use pst_model::Model;
use pst_scen::Scenario;
use pst_trace_writer::{header, write_trace};
use std::alloc::{AllocError, Global};
use std::io;
use std::io::Read;

/// The most bytes that are read.
const LIMIT: u64 = 1 << 24;

// A text with ` / ` for each line feed but the last.
fn on_one_line(alloc: Global, text: &str) -> Result<String, AllocError> {
    let mut line = String::new(alloc);
    let mut is_first = true;
    for part in text.lines() {
        if !is_first {
            line.push_str(" / ")?;
        }
        line.push_str(part)?;
        is_first = false;
    }
    Ok(line)
}

// The header of a scenario in a format, or `none`.
fn header_of(
    alloc: Global,
    names: &Names,
    model: &Model,
    scenario: &Scenario,
    format: u32,
) -> Result<String, NoMemory> {
    let wanted = u8::try_from(format).unwrap_or(0);
    match header(alloc, names, model, scenario, wanted)? {
        Some(text) => Ok(text),
        None => Ok(String::from_str(alloc, "none")?),
    }
}

// What is written of a description's nodes, actions, first leaves, events and last line, in a model.
// `header` asks for the header in a format, and every other call for a whole trace.
fn written_in(
    alloc: Global,
    names: &Names,
    model: &Model,
    call: &str,
    format: u32,
    text: &str,
) -> Result<String, NoMemory> {
    let mut parts = text.split('|');
    let nodes = parts.next().unwrap_or("");
    let actions = parts.next().unwrap_or("");
    let firsts = parts.next().unwrap_or("");
    let scenario = scenario_of(alloc, nodes, actions, firsts)?;
    if call == "header" {
        return header_of(alloc, names, model, &scenario, format);
    }
    let events = events_of(alloc, parts.next().unwrap_or(""))?;
    let last = last_of(parts.next().unwrap_or(""));
    write_trace(alloc, names, model, &scenario, events.as_slice(), last)
}

// What is written of a description: of a model, and of what runs in it.
fn written(alloc: Global, call: &str, format: u32, text: &str) -> Result<String, NoMemory> {
    let mut names = Names::new(alloc);
    let (described, rest) = text.split_once('=').unwrap_or((text, ""));
    let model = model_of(alloc, &mut names, described)?;
    written_in(alloc, &names, &model, call, format, rest)
}

// What is answered to a call on a text.
fn answer(alloc: Global, heading: &Heading, text: &str) -> Result<String, NoMemory> {
    if heading.call.as_str() == "read" {
        return read_of(alloc, text);
    }
    let trace = written(alloc, heading.call.as_str(), heading.number, text)?;
    Ok(on_one_line(alloc, trace.as_str())?)
}

// What must be answered to a case, and what is.
fn compared(alloc: Global, heading: &Heading, line: &str) -> Result<(String, String), AllocError> {
    let (owed, text) = line.split_once(": ").unwrap_or((line, ""));
    let wanted = String::from_str(alloc, owed)?;
    let found = match answer(alloc, heading, text) {
        Ok(text) => text,
        Err(_) => String::from_str(alloc, "no memory")?,
    };
    Ok((wanted, found))
}

fn main(rt: HostRuntime) -> io::Result<()> {
    let alloc = rt.alloc();
    let table = io::read_to_string(alloc, rt.reader().take(LIMIT))?;
    let mut heading = Heading::new(alloc);
    let mut score = Score::new();
    for line in &joined_lines(alloc, table.as_str())? {
        if !heading.take(line.as_str())? {
            let (wanted, found) = compared(alloc, &heading, line.as_str())?;
            score.count(&rt, line.as_str(), wanted.as_str(), found.as_str())?;
        }
    }
    score.print(&rt)
}
