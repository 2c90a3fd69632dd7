//! The table of the program: what words are answered over files in memory, with calls of the shelf
//! and writes to the sink that fail; the models of small sources; and what shelves of files, sinks and
//! lanes answer to calls in turn. All is compared with answers that were worked out by hand, and models
//! also with those that a second elaborator in another language makes.
//!
//! `stdin` is the table, in the form that `pst_cases` describes. A case of words is `STATUS TEXT: WORDS
//! => NAMES => SHELF => SINK => TEXTS`, as `pst_tests_settings` reads it: the text has a `/` for each
//! line feed; `''` is a word without letters; the names and texts are those of the files; the shelf's
//! calls with these numbers fail; the sink takes so many bytes a write, and the writes with the numbers
//! behind fail. The calls:
//!
//! - `alone`: on one lane. `lanes`: on so many as `number` says.
//! - `failing`: on a lane whose call of that number fails; behind the text ` |`, and the lane's calls.
//! - `faulty`: on 16 lanes, of which lane 0 fails at its call of that number; behind the text the lanes' calls.
//! - `shared`: on 16; in place of the text how many lines it has, the second of them and the last, what
//!   `check` answers to it, and how many lanes have other calls than the trace says.
//! - `each`: for how many of the first calls of the first lanes, so many of both, a run in which that
//!   one fails is neither whole nor begins a whole one.
//! - `behind`: lane 0 waits at the gate until lane 1 has come; what starts first, and whether it came.
//! - `together`: so many lanes wait at the gate until all of them have come; the same.
//! - `ends`: in place of the text how many lines it has, the second of them and the last.
//! - `judged`: what `check` answers to the text.
//! - `writes`: the status, and for how many writes of the text, where that one fails, the status isn't
//!   7, or something else was written than what stands before it.
//! - `swept`: by the call that answers sweeps alone. `swept writes`: the same as `writes`, by that call.
//! - `rows`: how many rows a sweep has, and how many of them say something else than `solve` does of
//!   their seed.
//! - `cuts`: how many fronts of a source have another status than 1, and the status of the source.
//! - `model C::A`: the model of the sources and that root, in the form of `model_text` of
//!   `pst_model_texts`; where they have none the rule that they break with its place, or how many
//!   instances there are.
//! - Any other call is one of `devices`.
#![tactic(auto)]

mod broken;
mod calls;
mod cuts;
mod devices;
mod judged;
mod lanes;
mod models;
mod output;
mod runs;
mod shelves;
mod sinks;
mod sweeps;
mod system;
mod writes;

use pst_cases::{Heading, Score, framed, joined_lines, repeated};
use pst_tests_settings::Meeting;
use std::alloc::AllocError;
use std::io;
use std::io::Read;
use std::sync::Wait;
use std::thread::Threads;

/// The most bytes that are read.
const LIMIT: u64 = 1 << 24;

// What is answered to a call on a text that runs on several lanes.
fn on_several<R: Threads + Wait + Sync + AllocGlobal>(
    rt: &R,
    heading: &Heading,
    text: &str,
) -> Result<String, AllocError> {
    let number = heading.number;
    match heading.call.as_str() {
        "lanes" => runs::on_lanes(rt, number, text),
        "faulty" => runs::on_failing(rt, number, text),
        "shared" => runs::shared(rt, number, text),
        "each" => runs::each_failing(rt, number, text),
        "behind" => runs::at_gate(rt, &Meeting::new(1, 2), text),
        _ => {
            let all = 1u64.wrapping_shl(number).wrapping_sub(1);
            runs::at_gate(rt, &Meeting::new(all, all), text)
        }
    }
}

// What is answered to a call on a text.
fn answer<R: Threads + Wait + Sync + AllocGlobal>(
    rt: &R,
    system: &HostRuntime,
    heading: &Heading,
    text: &str,
) -> Result<String, AllocError> {
    let alloc = rt.alloc();
    match heading.call.as_str() {
        "alone" => calls::alone(alloc, text),
        "failing" => calls::on_failing(alloc, heading.number, text),
        "ends" => calls::ends(alloc, text),
        "judged" => calls::judged(alloc, text),
        "writes" => writes::breaks(alloc, text),
        "cuts" => cuts::answers(alloc, text),
        "swept" => sweeps::swept(rt, alloc, text),
        "swept writes" => sweeps::breaks(rt, alloc, text),
        "rows" => sweeps::rows(rt, alloc, text),
        "lanes" | "faulty" | "shared" | "each" | "behind" | "together" => {
            on_several(rt, heading, text)
        }
        call => devices::answer(system, call, text),
    }
}

// What must be answered to a case, and what is.
fn compared<R: Threads + Wait + Sync + AllocGlobal>(
    rt: &R,
    system: &HostRuntime,
    heading: &Heading,
    line: &str,
) -> Result<(String, String), AllocError> {
    let alloc = rt.alloc();
    let (owed, text) = line.split_once(": ").unwrap_or((line, ""));
    let whole = framed(alloc, heading.frame.as_str(), text)?;
    let written = repeated(alloc, whole.as_str())?;
    if let Some(root) = heading.call.strip_prefix("model ") {
        return models::compared(alloc, root, owed, written.as_str());
    }
    let wanted = String::from_str(alloc, owed)?;
    let found = answer(rt, system, heading, written.as_str())?;
    Ok((wanted, found))
}

fn main(rt: HostRuntime) -> io::Result<()> {
    let alloc = rt.alloc();
    let table = io::read_to_string(alloc, rt.reader().take(LIMIT))?;
    let mut heading = Heading::new(alloc);
    let mut score = Score::new();
    for line in &joined_lines(alloc, table.as_str())? {
        if !heading.take(line.as_str())? {
            let (wanted, found) = compared(&rt, &rt, &heading, line.as_str())?;
            score.count(&rt, line.as_str(), wanted.as_str(), found.as_str())?;
        }
    }
    score.print(&rt)
}
