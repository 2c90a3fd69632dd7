//! Sweeps over seeds.
use crate::calls::written as written_alone;
use crate::writes::is_broken_at;
use pst_portable::portable_sweep;
use pst_tests_settings::{Setting, bytes_a_write, failing_of, setting_of, shown};
use std::alloc::{AllocError, Global};
use std::thread::Threads;

// The status of the answer, and the bytes that were written.
fn written<R: Threads + Sync>(
    rt: &R,
    alloc: Global,
    setting: Setting,
) -> Result<(u8, Vec<u8>), AllocError> {
    let Setting {
        words,
        mut shelf,
        mut sink,
    } = setting;
    let answer = portable_sweep(rt, alloc, words.as_slice(), &mut shelf, &mut sink);
    Ok((answer.status(), Vec::from_slice(alloc, sink.bytes())?))
}

/// The status of the answer, and the text.
pub fn swept<R: Threads + Sync>(rt: &R, alloc: Global, text: &str) -> Result<String, AllocError> {
    let (status, bytes) = written(rt, alloc, setting_of(alloc, text)?)?;
    shown(alloc, status, bytes.as_slice())
}

/// The status, and for how many writes of the text, where that one fails, the status isn't 7, or
/// something else was written than what stands before it.
pub fn breaks<R: Threads + Sync>(rt: &R, alloc: Global, text: &str) -> Result<String, AllocError> {
    let (status, whole) = written(rt, alloc, setting_of(alloc, text)?)?;
    let most = bytes_a_write(text).max(1);
    let count = whole.len().div_ceil(most);
    let mut wrong = 0u32;
    for write in 1..=count {
        let (broken, bytes) = written(rt, alloc, failing_of(alloc, text, write as u64)?)?;
        if !is_broken_at(text, write, whole.as_slice(), broken, bytes.as_slice()) {
            wrong = wrong.wrapping_add(1);
        }
    }
    let mut found = String::new(alloc);
    write!(found, "{status} {wrong}")?;
    Ok(found)
}

// The words of `solve` that seek the scenario of one of the seeds.
fn solving_words(alloc: Global, words: &[String], seed: &str) -> Result<Vec<String>, AllocError> {
    let mut solving = Vec::new(alloc);
    solving.push(String::from_str(alloc, "solve")?)?;
    for word in words {
        let word = word.as_str();
        if word != "sweep" && !word.starts_with("count=") && !word.starts_with("first=") {
            solving.push(String::from_str(alloc, word)?)?;
        }
    }
    let mut seeding = String::from_str(alloc, "seed=")?;
    seeding.push_str(seed)?;
    solving.push(seeding)?;
    Ok(solving)
}

// The row of a seed by what `solve` answers.
fn row_of(alloc: Global, seed: &str, status: u8, text: &str) -> Result<String, AllocError> {
    let mut row = String::new(alloc);
    let mut lines = text.lines();
    let first = lines.next().unwrap_or("");
    if status == 0 {
        let second = lines.next().unwrap_or("");
        let counts = second.strip_prefix("scenario ").unwrap_or("");
        write!(row, "seed {seed} found {counts}")?;
    } else if status == 3 {
        write!(row, "seed {seed} noscenario")?;
    } else {
        write!(row, "seed {seed} {first}")?;
    }
    Ok(row)
}

// Whether `solve` answers to the seed of a row what the row says.
fn is_row_of_solve(alloc: Global, text: &str, line: &str) -> Result<bool, AllocError> {
    let rest = line.strip_prefix("seed ").unwrap_or("");
    let (seed, _) = rest.split_once(' ').unwrap_or((rest, ""));
    let Setting { words, shelf, sink } = setting_of(alloc, text)?;
    let words = solving_words(alloc, words.as_slice(), seed)?;
    let (status, bytes) = written_alone(alloc, Setting { words, shelf, sink })?;
    let solved = String::from_utf8_lossy(alloc, bytes.as_slice())?;
    let row = row_of(alloc, seed, status, solved.as_str())?;
    Ok(row.as_str() == line)
}

/// How many rows there are, and how many of them say something else than `solve` does of their seed.
pub fn rows<R: Threads + Sync>(rt: &R, alloc: Global, text: &str) -> Result<String, AllocError> {
    let (_status, bytes) = written(rt, alloc, setting_of(alloc, text)?)?;
    let table = String::from_utf8_lossy(alloc, bytes.as_slice())?;
    let mut count = 0u32;
    let mut wrong = 0u32;
    for line in table.as_str().lines() {
        if line.starts_with("seed ") {
            count = count.wrapping_add(1);
            if !is_row_of_solve(alloc, text, line)? {
                wrong = wrong.wrapping_add(1);
            }
        }
    }
    let mut found = String::new(alloc);
    write!(found, "{count} {wrong}")?;
    Ok(found)
}
