//! Texts of what came of a case.
use pst_target::Call;
use std::alloc::{AllocError, Global};

/// The status of an answer and the text that was written, with a `/` for each line feed.
pub fn shown(alloc: Global, status: u8, bytes: &[u8]) -> Result<String, AllocError> {
    let mut text = String::new(alloc);
    write!(text, "{status} ")?;
    for byte in bytes {
        text.push(if *byte == b'\n' {
            '/'
        } else {
            char::from(*byte)
        })?;
    }
    Ok(text)
}

/// The status, how many lines were written, the second of them and the last.
pub fn ends_of(alloc: Global, status: u8, bytes: &[u8]) -> Result<String, AllocError> {
    let written = String::from_utf8_lossy(alloc, bytes)?;
    let count = written.as_str().lines().count();
    let second = written.as_str().lines().nth(1).unwrap_or("");
    let last = written.as_str().lines().last().unwrap_or("");
    let mut text = String::new(alloc);
    write!(text, "{status} {count} {second} {last}")?;
    Ok(text)
}

/// Writes the calls of a lane: each function's number with its arguments.
pub fn add_calls(text: &mut String, calls: &[Call]) -> Result<(), AllocError> {
    for call in calls {
        write!(text, " {}", call.function)?;
        for argument in call.arguments.as_slice() {
            write!(text, ":{argument}")?;
        }
    }
    Ok(())
}
