//! The law that the program's answers are complete: where nothing stands in the way, the answer is the
//! one that the words ask for.
//!
//! The page to read is `specs/Complete`.
#![tactic(auto)]

mod laws;

pub use laws::{lines_are_complete, rows_are_fixed};
