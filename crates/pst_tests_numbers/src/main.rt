//! The table of numbers: what is answered on whole numbers, expressions, spans, random words, names,
//! places and words of the command line, and on systems of constraints, is compared with answers that
//! were worked out by hand, or by other programs, or by a plain enumeration in another language.
//!
//! `stdin` is the table, in the form that `pst_cases` describes. What each call answers stands at
//! the function that makes it.
#![tactic(auto)]

mod arithmetic;
mod evaluating;
mod expressions;
mod giving;
mod lines;
mod naming;
mod narrowing;
mod postfix;
mod random;
mod spanning;
mod systems;
mod values;

use pst_cases::{Heading, Score, framed, joined_lines, repeated};
use std::alloc::{AllocError, Global};
use std::io;
use std::io::Read;

/// The most bytes that are read.
const LIMIT: u64 = 1 << 24;

// What is answered to a call on a text.
fn answer(alloc: Global, heading: &Heading, text: &str) -> Result<String, AllocError> {
    let call = heading.call.as_str();
    match call {
        "number" => arithmetic::answer(alloc, text),
        "value" | "copy" | "left" | "set" => evaluating::answer(alloc, call, text),
        "span" | "refused" => spanning::answer(alloc, call, text),
        "word" | "start" | "weighted" => random::answer(alloc, call, text),
        "line" | "alone" | "seeds" => lines::answer(alloc, call, text, heading.number),
        "bounds" | "given" | "fitting" | "refused system" | "solutions" => {
            narrowing::answer(alloc, call, heading.number, text)
        }
        _ => naming::answer(alloc, call, text),
    }
}

// What must be answered to a case, and what is.
fn compared(alloc: Global, heading: &Heading, line: &str) -> Result<(String, String), AllocError> {
    let (owed, text) = line.split_once(": ").unwrap_or((line, ""));
    let whole = framed(alloc, heading.frame.as_str(), text)?;
    let written = repeated(alloc, whole.as_str())?;
    let wanted = String::from_str(alloc, owed)?;
    let found = answer(alloc, heading, written.as_str())?;
    Ok((wanted, found))
}

fn main(rt: HostRuntime) -> io::Result<()> {
    let alloc = rt.alloc();
    let table = io::read_to_string(alloc, rt.reader().take(LIMIT))?;
    let mut heading = Heading::new(alloc);
    let mut score = Score::new();
    for line in &joined_lines(alloc, table.as_str())? {
        if !heading.take(line.as_str())? {
            let (wanted, found) = compared(alloc, &heading, line.as_str())?;
            score.count(&rt, line.as_str(), wanted.as_str(), found.as_str())?;
        }
    }
    score.print(&rt)
}
