//! Laws of the shape of scenarios.
ghost use Rattle.pst_read_legal.specs.ReadShapeLaws.{FittingScenariosHaveShape, WholeReadingsHaveShape};

use pst_built::{whole_readings_are_scenarios, whole_readings_fit, whole_readings_have_sources};

/// A scenario of a sound model that fits, and whose inferred actions may be inferred, fits in shape,
/// which is what each call on a model and a scenario asks for. So does one that a list of choices
/// reads whole, where the root isn't abstract.
pub fn fitting_scenarios_have_shape()
    ensures fitting { FittingScenariosHaveShape }
    ensures whole { WholeReadingsHaveShape }
{
    whole_readings_are_scenarios();
    whole_readings_have_sources();
    whole_readings_fit();
}
