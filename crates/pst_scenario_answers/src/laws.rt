//! The law of answers, the contract of a function that does nothing.
ghost use Rattle.pst_scenario_answers.specs.Checked.{ChecksAreOne};

use pst_trace_reader::readings_are_one;
use pst_trace_verdict::trace_verdicts_are_one;

/// At most one answer of a trace file is right.
pub fn checks_are_one()
    ensures { ChecksAreOne }
{
    readings_are_one();
    trace_verdicts_are_one();
}
