//! Words on several lanes.
use crate::judged::verdict;
use pst_portable::portable_stimulus;
use pst_target::{Gate, OpenGate, ScriptTarget};
use pst_tests_settings::{
    Meeting, Setting, add_lanes, count_astray, ends_of, lanes_of, setting_of, shown,
};
use std::alloc::{AllocError, Global};
use std::sync::Wait;
use std::thread::Threads;

// The status of the answer on these lanes at that gate, and the bytes that were written.
fn written<R: Threads + Wait + Sync, G: Gate + Sync>(
    rt: &R,
    alloc: Global,
    setting: Setting,
    lanes: &mut Vec<ScriptTarget>,
    gate: &G,
) -> Result<(u8, Vec<u8>), AllocError> {
    let Setting {
        words,
        mut shelf,
        mut sink,
    } = setting;
    let words = words.as_slice();
    let answer = portable_stimulus(rt, alloc, words, &mut shelf, &mut sink, lanes, gate);
    Ok((answer.status(), Vec::from_slice(alloc, sink.bytes())?))
}

/// The status of the answer on so many lanes, and the text.
pub fn on_lanes<R: Threads + Wait + Sync + AllocGlobal>(
    rt: &R,
    count: u32,
    text: &str,
) -> Result<String, AllocError> {
    let alloc = rt.alloc();
    let setting = setting_of(alloc, text)?;
    let mut lanes = lanes_of(alloc, count, 0, 0)?;
    let (status, bytes) = written(rt, alloc, setting, &mut lanes, &OpenGate)?;
    shown(alloc, status, bytes.as_slice())
}

/// The same on 16 lanes, of which lane 0 fails at its call of that number, with the calls of the lanes.
pub fn on_failing<R: Threads + Wait + Sync + AllocGlobal>(
    rt: &R,
    failing: u32,
    text: &str,
) -> Result<String, AllocError> {
    let alloc = rt.alloc();
    let setting = setting_of(alloc, text)?;
    let mut lanes = lanes_of(alloc, 16, 0, u64::from(failing))?;
    let (status, bytes) = written(rt, alloc, setting, &mut lanes, &OpenGate)?;
    let mut found = shown(alloc, status, bytes.as_slice())?;
    add_lanes(&mut found, lanes.as_slice())?;
    Ok(found)
}

/// The status on 16 lanes, how many lines were written, the second of them and the last, what `check`
/// says of them, and how many lanes have other calls than those of the actions that start there: the
/// body of an action calls the function of its number modulo `functions`, once.
pub fn shared<R: Threads + Wait + Sync + AllocGlobal>(
    rt: &R,
    functions: u32,
    text: &str,
) -> Result<String, AllocError> {
    let alloc = rt.alloc();
    let setting = setting_of(alloc, text)?;
    let mut lanes = lanes_of(alloc, 16, 0, 0)?;
    let (status, bytes) = written(rt, alloc, setting, &mut lanes, &OpenGate)?;
    let trace = String::from_utf8_lossy(alloc, bytes.as_slice())?;
    let astray = count_astray(alloc, trace.as_str(), lanes.as_slice(), functions)?;
    let verdict = verdict(alloc, text, bytes.as_slice())?;
    let mut found = ends_of(alloc, status, bytes.as_slice())?;
    write!(found, " | {verdict} | {astray}")?;
    Ok(found)
}

// The first line of a text that starts actions.
fn first_start(text: &str) -> &str {
    for line in text.lines() {
        if line.starts_with("start ") {
            return line;
        }
    }
    ""
}

/// The status on 16 lanes at a gate, how many lines were written, the second of them and the last, the
/// first that starts actions, and whether those that wait met those that they wait for.
pub fn at_gate<R: Threads + Wait + Sync + AllocGlobal>(
    rt: &R,
    gate: &Meeting,
    text: &str,
) -> Result<String, AllocError> {
    let alloc = rt.alloc();
    let setting = setting_of(alloc, text)?;
    let mut lanes = lanes_of(alloc, 16, 0, 0)?;
    let (status, bytes) = written(rt, alloc, setting, &mut lanes, gate)?;
    let trace = String::from_utf8_lossy(alloc, bytes.as_slice())?;
    let first = first_start(trace.as_str());
    let mut found = ends_of(alloc, status, bytes.as_slice())?;
    write!(found, " | {first} | {}", gate.was_kept())?;
    Ok(found)
}

// Whether a run on 16 lanes, of which one fails at its call of that number, is whole, or begins a whole
// one.
fn is_right<R: Threads + Wait + Sync + AllocGlobal>(
    rt: &R,
    text: &str,
    failing: u32,
    call: u32,
) -> Result<bool, AllocError> {
    let alloc = rt.alloc();
    let setting = setting_of(alloc, text)?;
    let mut lanes = lanes_of(alloc, 16, failing, u64::from(call))?;
    let (status, bytes) = written(rt, alloc, setting, &mut lanes, &OpenGate)?;
    let verdict = verdict(alloc, text, bytes.as_slice())?;
    Ok(match status {
        0 => verdict.as_str() == "check whole",
        5 => verdict.as_str() == "check prefix",
        _ => false,
    })
}

/// For how many of the first calls of the first lanes, so many of both, a run in which that one fails is
/// neither whole nor begins a whole one.
pub fn each_failing<R: Threads + Wait + Sync + AllocGlobal>(
    rt: &R,
    count: u32,
    text: &str,
) -> Result<String, AllocError> {
    let mut wrong = 0u32;
    for number in 0..count.saturating_mul(count) {
        let lane = number.checked_div(count).unwrap_or(0);
        let call = number.checked_rem(count).unwrap_or(0).wrapping_add(1);
        if !is_right(rt, text, lane, call)? {
            wrong = wrong.wrapping_add(1);
        }
    }
    let mut found = String::new(rt.alloc());
    write!(found, "{wrong}")?;
    Ok(found)
}
