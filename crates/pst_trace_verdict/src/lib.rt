//! Judges the text of a trace against a scenario: its header, its blocks and its last line.
#![tactic(auto)]

mod events;
mod header;
mod judge;
mod laws;
mod verdict;

pub use judge::judge_trace;
pub use laws::{read_events_are_blocks, trace_verdicts_are_one};
pub use verdict::TraceVerdict;
