//! The law of traces that are written, the contract of a function that does nothing.
ghost use Rattle.pst_written_traces.specs.Written.{WrittenTracesAreRead};

use pst_trace_reader::readings_are_one;

/// What is written as a trace in format 2 is the text of one, and whoever reads it finds its own
/// header, events and last line, and no bad line.
///
/// Names have bytes from 0x20 to 0x7E alone, counts and numbers of actions are below 2^32, events
/// are whole blocks on lanes up to 15, and the scenario was run.
pub fn written_traces_are_read()
    ensures { WrittenTracesAreRead }
{
    readings_are_one();
}
