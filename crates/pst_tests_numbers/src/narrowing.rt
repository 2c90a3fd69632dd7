//! Systems of constraints: narrowing, and the search for values. A system is written as the domains of
//! its variables, ` | `, and its constraints with `;` between them.
use crate::{giving, values};
use pst_base::NoMemory;
use std::alloc::{AllocError, Global};

// What is answered to a call on a system.
fn found(alloc: Global, call: &str, number: u32, text: &str) -> Result<String, NoMemory> {
    match call {
        "bounds" => values::narrowed(alloc, text),
        "given" => giving::given(alloc, text),
        "fitting" => giving::fitting(alloc, text),
        "refused system" => giving::refused(alloc, text),
        _ => values::solutions(alloc, number, text),
    }
}

/// What is answered to a call on a system.
pub fn answer(alloc: Global, call: &str, number: u32, text: &str) -> Result<String, AllocError> {
    match found(alloc, call, number, text) {
        Ok(text) => Ok(text),
        Err(NoMemory) => String::from_str(alloc, "no memory"),
    }
}
