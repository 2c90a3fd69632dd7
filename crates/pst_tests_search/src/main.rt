//! The table of searches: what the search answers on small models is compared with answers that were
//! worked out by hand, or by a plain enumeration in another language.
//!
//! `stdin` is the table, in the form that `pst_cases` describes. The text of a case is a model, `=`,
//! the seed, the most actions that are inferred, and the budget. The answer is `noscenario`,
//! `budget` and the level, or `found`, the level and the scenario; where the budget allows two
//! answers, both stand with ` or ` between them.
#![tactic(auto)]

mod asked;
mod expressions;
mod models;
mod shown;
mod steps;
mod words;

use crate::asked::searched;
use crate::models::model_of;
use crate::words::Words;
use pst_base::NoMemory;
use pst_cases::{Heading, Score, framed, joined_lines, repeated};
use std::alloc::{AllocError, Global};
use std::io;
use std::io::Read;

/// The most bytes that are read.
const LIMIT: u64 = 1 << 24;

// What the search answers.
fn answer(alloc: Global, text: &str) -> Result<String, NoMemory> {
    let (described, asked) = text.split_once('=').unwrap_or((text, ""));
    let model = model_of(alloc, described)?;
    let mut words = Words { left: asked };
    let seed = words.large();
    let infer = words.index();
    let budget = words.large();
    searched(alloc, &model, seed, infer, budget)
}

// Whether the answer is one of those that may come.
fn is_allowed(owed: &str, found: &str) -> bool {
    owed.split(" or ").any(|one| one == found)
}

// What must be answered to a case, and what is.
fn compared(alloc: Global, heading: &Heading, line: &str) -> Result<(String, String), AllocError> {
    let (owed, text) = line.split_once(": ").unwrap_or((line, ""));
    let whole = framed(alloc, heading.frame.as_str(), text)?;
    let written = repeated(alloc, whole.as_str())?;
    let found = match answer(alloc, written.as_str()) {
        Ok(text) => text,
        Err(_) => String::from_str(alloc, "no memory")?,
    };
    let wanted = if is_allowed(owed, found.as_str()) {
        String::from_str(alloc, found.as_str())?
    } else {
        String::from_str(alloc, owed)?
    };
    Ok((wanted, found))
}

fn main(rt: HostRuntime) -> io::Result<()> {
    let alloc = rt.alloc();
    let table = io::read_to_string(alloc, rt.reader().take(LIMIT))?;
    let mut heading = Heading::new(alloc);
    let mut score = Score::new();
    for line in &joined_lines(alloc, table.as_str())? {
        if !heading.take(line.as_str())? {
            let (wanted, found) = compared(alloc, &heading, line.as_str())?;
            score.count(&rt, line.as_str(), wanted.as_str(), found.as_str())?;
        }
    }
    score.print(&rt)
}
