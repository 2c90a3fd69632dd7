//! Laws of verdicts on texts, each the contract of a function that does nothing.
ghost use Rattle.pst_trace_verdict.specs.Laws.{TraceVerdictsAreOne, ReadEventsAreBlocks};

use pst_check::verdicts_are_one;

/// At most one verdict on a text is right.
pub fn trace_verdicts_are_one()
    ensures { TraceVerdictsAreOne }
{
    verdicts_are_one();
}

/// The events of a text that is read are whole blocks.
pub fn read_events_are_blocks()
    ensures { ReadEventsAreBlocks }
{}
