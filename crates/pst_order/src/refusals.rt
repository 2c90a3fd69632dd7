//! Laws of refusals.
ghost use Rattle.pst_order.specs.Laws.{UnrefusedIsPlanned, PlannedIsUnrefused};

use pst_scen::before_is_never_itself;

/// A linked scenario has a plan exactly where it isn't refused: then a whole legal trace exists.
pub fn unrefused_is_planned()
    ensures planned { UnrefusedIsPlanned }
    ensures unrefused { PlannedIsUnrefused }
{
    before_is_never_itself();
}
