//! Laws of printed traces: the check of a trace file takes the text of a trace for what it is.
//!
//! The crate has no behaviour.
#![tactic(auto)]

mod laws;

pub use laws::{begun_traces_are_taken, whole_traces_are_taken};
