//! The laws of runs on one lane, each the contract of a function that does nothing.
ghost use Rattle.pst_run_alone.specs.Shown.{RunsAreOne, TracesAreOne};

use pst_legal::bodies_end_once;
use pst_order::core_is_one;

/// What a lane tells of its calls decides the answer of a run and its text.
pub fn runs_are_one()
    ensures { RunsAreOne }
{
    bodies_end_once();
    core_is_one();
}

/// What a lane tells of its calls decides the trace of a whole run.
pub fn traces_are_one()
    ensures { TracesAreOne }
{
    bodies_end_once();
    core_is_one();
}
