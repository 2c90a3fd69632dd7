//! Sources that are cut off.
use pst_io::{MemoryShelf, MemorySink};
use pst_portable::portable_alone;
use pst_target::SureTarget;
use std::alloc::{AllocError, Global};

// The status of the answer to a source.
fn status(alloc: Global, source: &[u8]) -> Result<u8, AllocError> {
    let mut words = Vec::new(alloc);
    for word in ["run", "root=pss_top::entry", "a.pss"] {
        words.push(String::from_str(alloc, word)?)?;
    }
    let mut files = Vec::new(alloc);
    files.push((
        String::from_str(alloc, "a.pss")?,
        Vec::from_slice(alloc, source)?,
    ))?;
    let mut shelf = MemoryShelf::new(files, Vec::new(alloc));
    let mut sink = MemorySink::new(alloc, 4096, Vec::new(alloc));
    let mut lane = SureTarget::new(alloc, Vec::new(alloc));
    let answer = portable_alone(alloc, words.as_slice(), &mut shelf, &mut sink, &mut lane);
    Ok(answer.status())
}

/// For how many of the fronts of a source, which are shorter than it, the status isn't 1, and the
/// status of the whole.
pub fn answers(alloc: Global, source: &str) -> Result<String, AllocError> {
    let bytes = source.as_bytes();
    let mut other = 0u32;
    for length in 0..bytes.len() {
        let (front, _) = bytes.split_at(length);
        if status(alloc, front)? != 1 {
            other = other.wrapping_add(1);
        }
    }
    let mut answer = String::new(alloc);
    write!(answer, "{other} {}", status(alloc, bytes)?)?;
    Ok(answer)
}
