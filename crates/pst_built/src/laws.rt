//! Laws of what lists of choices read.
ghost use Rattle.pst_built.specs.ReadFitsLaws.{ActivitiesFillTheirRoot, WholeReadingsFillTheirRoot, WholeReadingsFit};

use pst_expr::domains_list_values;

/// An activity that is read through, of a sound model, fills the root, within the limits on its
/// size. So does a scenario that is read whole.
pub fn activities_fill_their_root()
    ensures activity { ActivitiesFillTheirRoot }
    ensures whole { WholeReadingsFillTheirRoot }
{
    domains_list_values();
}

/// A scenario that is read whole, of a sound model and a root that isn't abstract, fits: it fills the
/// root, with values of the declared domains and the model's pools, within the limits.
pub fn whole_readings_fit()
    ensures { WholeReadingsFit }
{
    domains_list_values();
}
