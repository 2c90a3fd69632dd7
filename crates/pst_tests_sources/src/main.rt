//! The table of sources: what is answered on small sources, from their tokens to their pools, is
//! compared with answers that were worked out by hand.
//!
//! `stdin` is the table, in the form that `pst_cases` describes. What each call answers stands at
//! the function that makes it.
#![tactic(auto)]

mod judging;
mod lexing;
mod naming;
mod parsing;
mod placing;
mod reading;
mod shapes;
mod spelling;

use pst_cases::{Heading, Marked, Score, framed, joined_lines, read_marked, repeated};
use std::alloc::{AllocError, Global};
use std::io;
use std::io::Read;

/// The most bytes that are read.
const LIMIT: u64 = 1 << 24;

// What is answered to a call on a source.
fn answer(alloc: Global, heading: &Heading, source: &Marked) -> Result<String, AllocError> {
    let files = source.files.as_slice();
    let number = heading.number;
    let Some((text, _)) = files.split_first() else {
        return Ok(String::new(alloc));
    };
    match heading.call.as_str() {
        "kinds" => lexing::kinds(alloc, text.as_slice()),
        "tokens" => lexing::tokens(alloc, text.as_slice(), number),
        "count" => lexing::count(alloc, text.as_slice(), number),
        "unit" | "parts" | "spelled" | "spelling" | "fronts" => {
            spelling::answer(alloc, text.as_slice(), heading.call.as_str())
        }
        "groups" | "branches" | "first" | "left" => {
            shapes::answer(alloc, text.as_slice(), heading.call.as_str())
        }
        "item" => naming::item(alloc, files, source.marks.as_slice()),
        "names"
        | "declared"
        | "meanings"
        | "types"
        | "values"
        | "pools"
        | "instances"
        | "number"
        | "map" => judging::answer(alloc, files, heading.call.as_str()),
        call => parsing::answer(alloc, text.as_slice(), call, number),
    }
}

// What must be answered to a case, and what is.
fn compared(alloc: Global, heading: &Heading, line: &str) -> Result<(String, String), AllocError> {
    let (owed, text) = line
        .split_once(": ")
        .unwrap_or((line.strip_suffix(':').unwrap_or(line), ""));
    let whole = framed(alloc, heading.frame.as_str(), text)?;
    let written = repeated(alloc, whole.as_str())?;
    let source = read_marked(alloc, written.as_str())?;
    let wanted = source.wanted(alloc, owed)?;
    let found = answer(alloc, heading, &source)?;
    Ok((wanted, found))
}

fn main(rt: HostRuntime) -> io::Result<()> {
    let alloc = rt.alloc();
    let table = io::read_to_string(alloc, rt.reader().take(LIMIT))?;
    let mut heading = Heading::new(alloc);
    let mut score = Score::new();
    for line in &joined_lines(alloc, table.as_str())? {
        if !heading.take(line.as_str())? {
            let (wanted, found) = compared(alloc, &heading, line.as_str())?;
            score.count(&rt, line.as_str(), wanted.as_str(), found.as_str())?;
        }
    }
    score.print(&rt)
}
