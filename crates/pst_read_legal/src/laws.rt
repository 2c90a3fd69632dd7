//! Laws of plans and of whole readings.
ghost use Rattle.pst_read_legal.specs.Laws.{WritersComeFromFirst, RunningReadingsAreSupplied, PlannedReadingsAreLegal, LegalIsUnrefused};

use crate::{fitting_scenarios_have_shape, whole_readings_are_numbered};
use pst_built::{
    whole_readings_are_built, whole_readings_are_scenarios, whole_readings_fit,
    whole_readings_have_sources,
};
use pst_order::{must_is_kept, whole_is_sound};

/// Where a scenario's links lead to sources and it can run to its end, the previous writers of each
/// output to a state pool lead back to the pool's first object. So a scenario that is read whole and
/// can run to its end is supplied.
pub fn writers_come_from_first()
    ensures chain { WritersComeFromFirst }
    ensures supplied { RunningReadingsAreSupplied }
{
    must_is_kept();
    whole_readings_have_sources();
    whole_readings_are_numbered();
}

/// Of a sound model and a root that isn't abstract, a scenario that is read whole, in which every
/// constraint holds and that has a plan, is a legal one of the level that was asked for.
pub fn planned_readings_are_legal()
    ensures { PlannedReadingsAreLegal }
{
    writers_come_from_first();
    whole_readings_are_built();
    whole_readings_are_scenarios();
    whole_readings_fit();
    fitting_scenarios_have_shape();
}

/// A legal scenario isn't refused by its plan: where a plan is refused, a search may pass what it has
/// read.
pub fn legal_is_unrefused()
    ensures { LegalIsUnrefused }
{
    whole_is_sound();
}
