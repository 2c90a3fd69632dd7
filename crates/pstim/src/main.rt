//! The program: it hands the words of the command line, the system's files and standard output to
//! the call that answers them, and ends with the status of the answer.
#![tactic(auto)]

use pst_base::NoMemory;
use pst_io::{FileShelf, OutSink};
use pst_portable::portable_stimulus;
use pst_target::{OpenGate, ScriptTarget};
use std::alloc::{AllocError, Global};
use std::env::FillError;
use std::process::ExitCode;
use std::rt::Env;

/// The status where the program itself finds no memory.
const NO_MEMORY: u8 = 8;

/// The logarithms of the bytes of room in which a word is read at first, and at last: no system hands in a longer one.
const LEAST_ROOM: u32 = 10;

const MOST_ROOM: u32 = 18;

/// The word at a place of the command line, none behind the last. A word that isn't UTF-8, or is too
/// long for any room, is handed in as an empty one: no line has that, wherever it is.
fn word_at<R: Env + AllocGlobal>(rt: &R, place: usize) -> Result<Option<String>, NoMemory> {
    for room in LEAST_ROOM..=MOST_ROOM {
        let mut bytes = Vec::new(rt.alloc());
        bytes.resize(1 << room, 0u8)?;
        match rt.arg(place, &mut bytes) {
            Ok(length) => {
                bytes.truncate(length);
                return Ok(Some(match String::from_utf8(bytes) {
                    Ok(word) => word,
                    Err(_) => String::new(rt.alloc()),
                }));
            }
            Err(FillError::NotPresent) => return Ok(None),
            Err(FillError::TooLong) => {}
        }
    }
    Ok(Some(String::new(rt.alloc())))
}

/// The words of the command line, without the program's name.
fn words_of<R: Env + AllocGlobal>(rt: &R) -> Result<Vec<String>, NoMemory> {
    let mut words = Vec::new(rt.alloc());
    for place in 1..usize::MAX {
        match word_at(rt, place)? {
            Some(word) => words.push(word)?,
            None => break,
        }
    }
    Ok(words)
}

/// Sixteen lanes without answers or failures.
fn lanes_of(alloc: Global) -> Result<Vec<ScriptTarget>, AllocError> {
    let mut lanes = Vec::with_capacity(alloc, 16)?;
    for _ in 0..16 {
        lanes.push(ScriptTarget::new(alloc, Vec::new(alloc), 0))?;
    }
    Ok(lanes)
}

fn main(rt: HostRuntime) -> ExitCode {
    let alloc = rt.alloc();
    let (Ok(words), Ok(mut lanes)) = (words_of(&rt), lanes_of(alloc)) else {
        return ExitCode::from(NO_MEMORY);
    };
    let mut shelf = FileShelf::new(&rt);
    let mut sink = OutSink::new(&rt);
    let answer = portable_stimulus(
        &rt, alloc, &words, &mut shelf, &mut sink, &mut lanes, &OpenGate,
    );
    ExitCode::from(answer.status())
}
