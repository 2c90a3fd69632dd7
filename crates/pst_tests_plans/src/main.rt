//! The table of plans and runs: what is answered on small scenarios, their plans and their runs is
//! compared with answers that were worked out by hand. Runs by threads are judged by the trace, by the
//! calls of each lane and by the place in which each lane stands afterwards.
//!
//! `stdin` is the table, in the form that `pst_cases` describes. What each call answers stands at
//! the function that makes it.
#![tactic(auto)]

mod alone;
mod gates;
mod judge;
mod machines;
mod plans;
mod runs;
mod several;
mod threads;

use pst_cases::{Heading, Score, framed, joined_lines, repeated};
use pst_scen::Scenario;
use pst_tests_scenarios::{end_of, planned, scenario_of};
use std::alloc::{AllocError, Global};
use std::io;
use std::io::Read;
use std::sync::Wait;
use std::thread::Threads;

/// The most bytes that are read.
const LIMIT: u64 = 1 << 24;

// What is answered to a call on a scenario, with commands behind it.
fn answer<R: Threads + Wait + Sync>(
    rt: &R,
    alloc: Global,
    heading: &Heading,
    scenario: &Scenario,
    commands: &str,
) -> Result<String, AllocError> {
    let call = heading.call.as_str();
    let number = heading.number;
    if call == "end" {
        return end_of(alloc, scenario);
    }
    let Some(plan) = planned(alloc, scenario) else {
        return String::from_str(alloc, "no plan");
    };
    match call {
        "alone" | "twice" => alone::answer(alloc, scenario, &plan, call, number, commands),
        "run" | "events" | "book" => runs::answer(alloc, scenario, &plan, call, number, commands),
        "programs" | "machine" | "driven" => {
            machines::answer(alloc, scenario, &plan, call, number, commands)
        }
        "many" | "every" | "fails" | "meets" => {
            let found = several::answer(rt, alloc, scenario, &plan, call, number, commands)?;
            String::from_str(alloc, found)
        }
        _ => plans::answer(alloc, &plan, call),
    }
}

// A scenario, and the commands that stand behind `=`.
fn parted(text: &str) -> (&str, &str) {
    text.split_once('=').unwrap_or((text, ""))
}

// What must be answered to a case, and what is.
fn compared<R: Threads + Wait + Sync>(
    rt: &R,
    alloc: Global,
    heading: &Heading,
    line: &str,
) -> Result<(String, String), AllocError> {
    let (owed, text) = line.split_once(": ").unwrap_or((line, ""));
    let whole = framed(alloc, heading.frame.as_str(), text)?;
    let written = repeated(alloc, whole.as_str())?;
    let (rows, commands) = parted(written.as_str());
    let wanted = String::from_str(alloc, owed)?;
    let found = match scenario_of(alloc, rows) {
        Ok(scenario) => answer(rt, alloc, heading, &scenario, commands)?,
        Err(_) => String::from_str(alloc, "no memory")?,
    };
    Ok((wanted, found))
}

fn main(rt: HostRuntime) -> io::Result<()> {
    let alloc = rt.alloc();
    let table = io::read_to_string(alloc, rt.reader().take(LIMIT))?;
    let mut heading = Heading::new(alloc);
    let mut score = Score::new();
    for line in &joined_lines(alloc, table.as_str())? {
        if !heading.take(line.as_str())? {
            let (wanted, found) = compared(&rt, alloc, &heading, line.as_str())?;
            score.count(&rt, line.as_str(), wanted.as_str(), found.as_str())?;
        }
    }
    score.print(&rt)
}
