// Narrowing by a list of constraints.
ghost use Rattle.std.specs.Prelude.{◌≡◌, ◌<◌, length, map, true, Ok};
ghost use Rattle.pst_expr.specs.Tree.{view};
ghost use Rattle.pst_domain.specs.Bounds.{AreUpright};
ghost use Rattle.pst_narrow.specs.Solutions.{AreMet};
ghost use Rattle.pst_narrow.specs.Narrowing.{IsStep, HaveVariablesBelow, AreOpen};
ghost use Rattle.pst_narrow.specs.Cuts.{CutsAreMade};

use crate::trail::Trail;
use crate::watch::Watch;
use pst_base::NoMemory;
use pst_domain::Bounds;
use pst_expr::Expr;

/// Makes the bounds narrower by constraints, all of which are to hold.
///
/// Values within the bounds under which every constraint holds stay within them. The answer is false only where there
/// are none. Where it is true no constraint is refused at the new bounds, and the cuts of comparisons between
/// variables and constants are made. [`Trail::undo`] to the trail's former mark gives the former bounds, also after
/// `NoMemory`.
pub fn narrow(
    constraints: &[Expr],
    bounds: &mut Bounds,
    trail: &mut Trail,
) -> Result<bool, NoMemory>
    requires upright { AreUpright bounds.old }
    requires variables { HaveVariablesBelow (length bounds.old) (map view constraints.now) }
    ensures step { IsStep (AreMet (map view constraints.now)) bounds.old bounds.new trail.old trail.new result }
    ensures open { result ≡ Ok true → AreOpen (map view constraints.now) bounds.new }
    ensures cuts { result ≡ Ok true → CutsAreMade (map view constraints.now) bounds.old bounds.new }
{
    let watch = Watch::new(trail.alloc(), constraints, bounds.spans().len())?;
    watch.narrow(constraints, bounds, trail)
}
