//! Sinks whose writes fail, one after another.
use crate::calls::written;
use pst_tests_settings::{bytes_a_write, failing_of, setting_of};
use std::alloc::{AllocError, Global};

/// Whether the status is 7 where that write fails, and all that was written is what stands before it.
pub fn is_broken_at(text: &str, write: usize, whole: &[u8], status: u8, bytes: &[u8]) -> bool {
    let before = write.saturating_sub(1).saturating_mul(bytes_a_write(text));
    let (front, _behind) = whole.split_at(before.min(whole.len()));
    status == 7 && bytes == front
}

/// The status, and for how many writes of the text, where that one fails, the status isn't 7, or
/// something else was written than what stands before it.
pub fn breaks(alloc: Global, text: &str) -> Result<String, AllocError> {
    let (status, whole) = written(alloc, setting_of(alloc, text)?)?;
    let most = bytes_a_write(text).max(1);
    let count = whole.len().div_ceil(most);
    let mut wrong = 0u32;
    for write in 1..=count {
        let (broken, bytes) = written(alloc, failing_of(alloc, text, write as u64)?)?;
        if !is_broken_at(text, write, whole.as_slice(), broken, bytes.as_slice()) {
            wrong = wrong.wrapping_add(1);
        }
    }
    let mut found = String::new(alloc);
    write!(found, "{status} {wrong}")?;
    Ok(found)
}
