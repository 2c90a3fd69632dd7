//! Shelves of files, sinks and lanes. What each call answers stands at the function that makes it.
use crate::{broken, lanes, output, shelves, sinks, system};
use std::alloc::AllocError;

/// What is answered to a call on a text.
pub fn answer(rt: &HostRuntime, call: &str, text: &str) -> Result<String, AllocError> {
    let alloc = rt.alloc();
    match call {
        "sure shelf" => shelves::sure(alloc, text),
        "memory shelf" => shelves::memory(alloc, text),
        "sure sink" => sinks::sure(alloc, text),
        "memory sink" => sinks::memory(alloc, text),
        "sure lane" => lanes::sure(alloc, text),
        "script lane" => lanes::script(alloc, text),
        "broken shelf" => broken::answer(alloc, text),
        "output" => output::standard(rt, text),
        _ => system::files(rt, text),
    }
}
