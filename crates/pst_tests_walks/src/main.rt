//! The table of walks: what lists of choices read of small models is compared with what a plain
//! reader in another language reads, which reads each whole list anew.
//!
//! `stdin` is the table, in the form that `pst_cases` describes. The text of a case is a model, `=`,
//! the seed and the number of inferred actions, `=`, and the choices. `pst_tests_lists` says what an
//! answer is. The call `lists` writes all that is read out, and `sizes` counts nodes and actions.
#![tactic(auto)]

mod activities;
mod models;
mod numbers;

use crate::models::model_of;
use crate::numbers::{Numbers, digits_of, numbers_of};
use pst_base::NoMemory;
use pst_cases::{Heading, Score, framed, joined_lines, repeated};
use pst_tests_lists::{Task, read_list};
use std::alloc::{AllocError, Global};
use std::io;
use std::io::Read;

/// The most bytes that are read.
const LIMIT: u64 = 1 << 24;

// What the choices of a text read.
fn answer(alloc: Global, call: &str, text: &str) -> Result<String, NoMemory> {
    let (described, rest) = text.split_once('=').unwrap_or((text, ""));
    let (asked, choices) = rest.split_once('=').unwrap_or((rest, ""));
    let model = model_of(alloc, described)?;
    let all = numbers_of(alloc, asked)?;
    let mut numbers = Numbers {
        left: all.as_slice(),
    };
    let task = Task {
        model: &model,
        seed: u64::from(numbers.index()),
        level: numbers.index(),
        brief: call == "sizes",
    };
    let digits = digits_of(alloc, choices)?;
    read_list(alloc, &task, digits.as_slice())
}

// What must be answered to a case, and what is.
fn compared(alloc: Global, heading: &Heading, line: &str) -> Result<(String, String), AllocError> {
    let (owed, text) = line.split_once(':').unwrap_or((line, ""));
    let whole = framed(alloc, heading.frame.as_str(), text)?;
    let written = repeated(alloc, whole.as_str())?;
    let wanted = String::from_str(alloc, owed)?;
    let found = match answer(alloc, heading.call.as_str(), written.as_str()) {
        Ok(text) => text,
        Err(_) => String::from_str(alloc, "no memory")?,
    };
    Ok((wanted, found))
}

fn main(rt: HostRuntime) -> io::Result<()> {
    let alloc = rt.alloc();
    let table = io::read_to_string(alloc, rt.reader().take(LIMIT))?;
    let mut heading = Heading::new(alloc);
    let mut score = Score::new();
    for line in &joined_lines(alloc, table.as_str())? {
        if !heading.take(line.as_str())? {
            let (wanted, found) = compared(alloc, &heading, line.as_str())?;
            score.count(&rt, line.as_str(), wanted.as_str(), found.as_str())?;
        }
    }
    score.print(&rt)
}
