//! The law of traces that are written: they are read again as they were.
//!
//! The crate has no behaviour.
#![tactic(auto)]

mod laws;

pub use laws::written_traces_are_read;
