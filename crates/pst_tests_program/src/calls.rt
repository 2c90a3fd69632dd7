//! Words on one lane.
use pst_portable::portable_alone;
use pst_target::{Call, ScriptTarget, SureTarget};
use pst_tests_settings::{Setting, add_calls, ends_of, judging_of, setting_of, shown};
use std::alloc::{AllocError, Global};

/// The status of the answer on a lane that doesn't fail, and the bytes that were written.
pub fn written(alloc: Global, setting: Setting) -> Result<(u8, Vec<u8>), AllocError> {
    let Setting {
        words,
        mut shelf,
        mut sink,
    } = setting;
    let mut lane = SureTarget::new(alloc, Vec::new(alloc));
    let answer = portable_alone(alloc, words.as_slice(), &mut shelf, &mut sink, &mut lane);
    Ok((answer.status(), Vec::from_slice(alloc, sink.bytes())?))
}

/// The status of the answer, and the text.
pub fn alone(alloc: Global, text: &str) -> Result<String, AllocError> {
    let (status, bytes) = written(alloc, setting_of(alloc, text)?)?;
    shown(alloc, status, bytes.as_slice())
}

/// The status, how many lines were written, the second of them and the last.
pub fn ends(alloc: Global, text: &str) -> Result<String, AllocError> {
    let (status, bytes) = written(alloc, setting_of(alloc, text)?)?;
    ends_of(alloc, status, bytes.as_slice())
}

/// What `check` answers to the text that was written.
pub fn judged(alloc: Global, text: &str) -> Result<String, AllocError> {
    let (_status, trace) = written(alloc, setting_of(alloc, text)?)?;
    let (status, verdict) = written(alloc, judging_of(alloc, text, trace.as_slice())?)?;
    let verdict = String::from_utf8_lossy(alloc, verdict.as_slice())?;
    let mut found = String::new(alloc);
    write!(found, "{status} {}", verdict.as_str().trim_end())?;
    Ok(found)
}

// A status, the text that was written, and calls.
fn with_calls(
    alloc: Global,
    status: u8,
    bytes: &[u8],
    calls: &[Call],
) -> Result<String, AllocError> {
    let mut found = shown(alloc, status, bytes)?;
    found.push_str(" |")?;
    add_calls(&mut found, calls)?;
    Ok(found)
}

/// What is answered on a lane whose call of that number fails, and the lane's calls.
pub fn on_failing(alloc: Global, failing: u32, text: &str) -> Result<String, AllocError> {
    let Setting {
        words,
        mut shelf,
        mut sink,
    } = setting_of(alloc, text)?;
    let mut lane = ScriptTarget::new(alloc, Vec::new(alloc), u64::from(failing));
    let answer = portable_alone(alloc, words.as_slice(), &mut shelf, &mut sink, &mut lane);
    with_calls(alloc, answer.status(), sink.bytes(), lane.calls())
}
