//! Laws of printed runs, each the contract of a function that does nothing.
ghost use Rattle.pst_printed_answers.specs.Taken.{SharedRunsAreTaken, ScenariosAreTaken, ModelsAreTaken};
ghost use Rattle.pst_printed_answers.specs.Names.{LexedNamesArePrinted};

use pst_body_ends::bodies_are_short;
use pst_built::whole_readings_are_built;
use pst_legal::first_is_one;
use pst_own_names::names_of_texts_are_names;
use pst_printed_runs::runs_are_taken;
use pst_printed_traces::{begun_traces_are_taken, whole_traces_are_taken};

/// What a run on several lanes, at most 16, prints is checked as whole where all actions ended, and
/// as a prefix where a body failed or trapped.
pub fn shared_runs_are_taken()
    ensures { SharedRunsAreTaken }
{
    whole_traces_are_taken();
    begun_traces_are_taken();
    bodies_are_short();
}

/// The text that a scenario's run prints, on one lane or on several, is checked against the same
/// scenario as what it is.
pub fn scenarios_are_taken()
    ensures { ScenariosAreTaken }
{
    runs_are_taken();
    shared_runs_are_taken();
}

/// The text that a run of a model's first legal scenario prints is checked as what it is where the
/// same seed, and as many inferred actions or more, are given; or the check spends its budget.
pub fn models_are_taken()
    ensures { ModelsAreTaken }
{
    scenarios_are_taken();
    first_is_one();
    whole_readings_are_built();
}

/// Names of the own table of texts have bytes from 0x20 to 0x7E alone.
pub fn names_of_models_are_printed()
    ensures { LexedNamesArePrinted }
{
    names_of_texts_are_names();
}
