//! Laws of lines, each the contract of a function that does nothing.
ghost use Rattle.pst_trace_lines.specs.Blocks.{BlockLinesAreOne};
ghost use Rattle.pst_trace_lines.specs.Last.{LastLinesAreOne};

/// A line is that of at most one block.
pub fn block_lines_are_one()
    ensures { BlockLinesAreOne }
{}

/// A line says at most one thing as a last line.
pub fn last_lines_are_one()
    ensures { LastLinesAreOne }
{}
