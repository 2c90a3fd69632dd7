//! The law of runs on one lane, the contract of a function that does nothing.
ghost use Rattle.pst_printed_runs.specs.Taken.{RunsAreTaken};

use pst_body_ends::bodies_are_short;
use pst_lanes::acts_start_once;
use pst_order::{rule_is_legal, rule_is_prefix};
use pst_printed_traces::{begun_traces_are_taken, whole_traces_are_taken};

/// What a run on one lane prints is checked as whole where all actions ended, and as a prefix where a
/// body failed or trapped.
///
/// The plan is the scenario's, whose state links lead to outputs; names have bytes from 0x20 to 0x7E
/// alone, and counts are below 2^32.
pub fn runs_are_taken()
    ensures { RunsAreTaken }
{
    whole_traces_are_taken();
    begun_traces_are_taken();
    rule_is_legal();
    rule_is_prefix();
    acts_start_once();
    bodies_are_short();
}
