//! Laws of printed traces, each the contract of a function that does nothing.
ghost use Rattle.pst_printed_traces.specs.Printed.{WholeTracesAreTaken, BegunTracesAreTaken};

use pst_scen::prefixes_are_legal;
use pst_trace_verdict::trace_verdicts_are_one;
use pst_written_traces::written_traces_are_read;

/// The text of a whole legal trace on at most 16 lanes is checked as whole.
///
/// Names have bytes from 0x20 to 0x7E alone, and counts are below 2^32.
pub fn whole_traces_are_taken()
    ensures { WholeTracesAreTaken }
{
    written_traces_are_read();
    trace_verdicts_are_one();
}

/// The text of what begins a whole legal trace on at most 16 lanes, and ends at an action that runs,
/// is checked as a prefix.
///
/// Names have bytes from 0x20 to 0x7E alone, counts and the number of the call are below 2^32, and
/// the kind of a trap is 1 to 3.
pub fn begun_traces_are_taken()
    ensures { BegunTracesAreTaken }
{
    written_traces_are_read();
    trace_verdicts_are_one();
    prefixes_are_legal();
}
