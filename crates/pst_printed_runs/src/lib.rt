//! The law of runs on one lane that are printed: the check of the text takes it for what it is.
//!
//! The crate has no behaviour.
#![tactic(auto)]

mod laws;

pub use laws::runs_are_taken;
