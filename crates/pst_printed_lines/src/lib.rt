//! The law of two lines: what the first, `run`, prints the second, `check`, takes.
//!
//! The crate has no behaviour.
#![tactic(auto)]

mod laws;

pub use laws::lines_are_taken;
