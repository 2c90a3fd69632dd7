//! What `check` says of a trace.
use pst_portable::portable_alone;
use pst_target::SureTarget;
use pst_tests_settings::{Setting, judging_of};
use std::alloc::{AllocError, Global};

/// What `check` says of a trace, against what the words of a case ask for.
pub fn verdict(alloc: Global, text: &str, trace: &[u8]) -> Result<String, AllocError> {
    let Setting {
        words,
        mut shelf,
        mut sink,
    } = judging_of(alloc, text, trace)?;
    let mut lane = SureTarget::new(alloc, Vec::new(alloc));
    let _answer = portable_alone(alloc, words.as_slice(), &mut shelf, &mut sink, &mut lane);
    let verdict = String::from_utf8_lossy(alloc, sink.bytes())?;
    String::from_str(alloc, verdict.as_str().trim_end())
}
