//! Laws of plans behind the sources.
ghost use Rattle.pst_plan_so_far.specs.Laws.{SourcesAreBuilt, PlansRefuseLists};

use pst_built::{clashes_stay, parallel_disputes_stay};

/// Where a list of choices has read the activity and the sources, and perhaps claims and values behind
/// them, what it has read is built and its links name what there is.
pub fn sources_are_built()
    ensures { SourcesAreBuilt }
{}

/// Where the plan of such a scenario refuses it, no longer list reads a legal scenario.
pub fn plans_refuse_lists()
    ensures { PlansRefuseLists }
{
    clashes_stay();
    parallel_disputes_stay();
}
