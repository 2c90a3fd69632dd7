//! Shelves of files in memory.
use pst_io::{Failed, MemoryShelf, ReadEnd, Shelf, SureShelf, read_all};
use std::alloc::{AllocError, Global};

/// Writes bytes as letters.
pub fn write_bytes(answer: &mut String, bytes: &[u8]) -> Result<(), AllocError> {
    for byte in bytes {
        answer.push(char::from(*byte))?;
    }
    Ok(())
}

// Opens a file; `NUL` is a name that no file can have.
fn open<S: Shelf>(shelf: &mut S, name: &str) -> &'static str {
    let name = if name == "NUL" { "\0" } else { name };
    match shelf.open(name) {
        Ok(true) => "there",
        Ok(false) => "missing",
        Err(Failed) => "failed",
    }
}

// Reads into a piece of so many bytes.
fn read<S: Shelf>(answer: &mut String, shelf: &mut S, size: usize) -> Result<(), AllocError> {
    let mut piece = [b'-'; 16];
    let (piece, _) = piece.split_at_mut(size.min(16));
    match shelf.read(piece) {
        Ok(count) => {
            write!(answer, "{count} ")?;
            write_bytes(answer, piece)
        }
        Err(Failed) => answer.push_str("failed"),
    }
}

// Reads all that is left, which may be so many bytes.
fn rest<S: Shelf>(
    alloc: Global,
    answer: &mut String,
    shelf: &mut S,
    most: usize,
) -> Result<(), AllocError> {
    let mut bytes = Vec::new(alloc);
    let end = match read_all(shelf, &mut bytes, most) {
        Ok(()) => "all ",
        Err(ReadEnd::TooLong) => "too long ",
        Err(ReadEnd::Failed) => "failed ",
        Err(ReadEnd::NoMemory) => "no memory ",
    };
    answer.push_str(end)?;
    write_bytes(answer, bytes.as_slice())
}

/// Writes what a shelf answers to a command: `open NAME`, `find NAME`, `read SIZE` into a piece of so many bytes,
/// at most 16, or `rest MOST` for all that is left.
pub fn take<S: Shelf>(
    alloc: Global,
    answer: &mut String,
    shelf: &mut S,
    command: &str,
) -> Result<(), AllocError> {
    let (verb, rest_of) = command.split_once(' ').unwrap_or((command, ""));
    match verb {
        "open" => answer.push_str(open(shelf, rest_of)),
        "find" if open(shelf, rest_of) != "missing" => answer.push_str("not missing"),
        "find" => answer.push_str("missing"),
        "read" => read(answer, shelf, rest_of.parse::<usize>().unwrap_or(0)),
        "rest" => rest(alloc, answer, shelf, rest_of.parse::<usize>().unwrap_or(0)),
        _ => answer.push_str("no such command"),
    }
}

/// What a shelf answers to commands in turn.
pub fn taken<S: Shelf>(alloc: Global, shelf: &mut S, commands: &str) -> Result<String, AllocError> {
    let mut answer = String::new(alloc);
    for command in commands.split(", ") {
        if !answer.is_empty() {
            answer.push_str(", ")?;
        }
        take(alloc, &mut answer, shelf, command)?;
    }
    Ok(answer)
}

// The files of a text, each `NAME=BYTES`.
fn files_of(alloc: Global, text: &str) -> Result<Vec<(String, Vec<u8>)>, AllocError> {
    let mut files = Vec::new(alloc);
    for word in text.split_whitespace() {
        let (name, bytes) = word.split_once('=').unwrap_or((word, ""));
        let name = String::from_str(alloc, name)?;
        let bytes = Vec::from_slice(alloc, bytes.as_bytes())?;
        files.push((name, bytes))?;
    }
    Ok(files)
}

/// The numbers of a text.
pub fn numbers_of(alloc: Global, text: &str) -> Result<Vec<u64>, AllocError> {
    let mut numbers = Vec::new(alloc);
    for word in text.split_whitespace() {
        numbers.push(word.parse::<u64>().unwrap_or(0))?;
    }
    Ok(numbers)
}

/// What a shelf that doesn't fail answers. The text is its files, ` | ` and commands.
pub fn sure(alloc: Global, text: &str) -> Result<String, AllocError> {
    let (files, commands) = text.split_once(" | ").unwrap_or((text, ""));
    let mut shelf = SureShelf::new(files_of(alloc, files)?);
    taken(alloc, &mut shelf, commands)
}

/// What a shelf answers of which some calls fail. The text is its files, ` | `, the numbers of these
/// calls, ` | ` and commands.
pub fn memory(alloc: Global, text: &str) -> Result<String, AllocError> {
    let (files, rest) = text.split_once(" | ").unwrap_or((text, ""));
    let (failing, commands) = rest.split_once(" | ").unwrap_or((rest, ""));
    let failing = numbers_of(alloc, failing)?;
    let mut shelf = MemoryShelf::new(files_of(alloc, files)?, failing);
    taken(alloc, &mut shelf, commands)
}
