//! Reads single lines of traces, by the forms that `pst_trace_texts` gives them.
#![tactic(auto)]

mod blocks;
mod header;
mod last;
mod laws;
mod lines;
mod numbers;

pub use blocks::read_block;
pub use header::{HeaderLine, read_header_line};
pub use last::{LastLine, read_last};
pub use laws::{block_lines_are_one, last_lines_are_one};
pub use lines::{read_counts, read_end};
pub use numbers::cut;
