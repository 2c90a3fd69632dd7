//! The law of reading, the contract of a function that does nothing.
ghost use Rattle.pst_trace_reader.specs.Laws.{ReadingsAreOne};

use pst_trace_lines::{block_lines_are_one, last_lines_are_one};

/// A text stands for at most one trace, or has one first bad line, and never both.
pub fn readings_are_one()
    ensures { ReadingsAreOne }
{
    block_lines_are_one();
    last_lines_are_one();
}
