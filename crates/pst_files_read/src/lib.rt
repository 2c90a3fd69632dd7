//! Reading the files that the words of a line name, one after another: its sources, and behind them
//! the trace file of a line of `check`.
#![tactic(auto)]

mod files;
mod trace_file;

pub use files::{FileEnd, MOST_BYTES, read_sources};
pub use trace_file::{MOST_TRACE, name_given, read_trace};
