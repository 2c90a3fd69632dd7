// The variables of an expression, cut to what it takes for its value to lie in a span.
ghost use Rattle.std.specs.Prelude.{◌≡◌, ◌<◌, length, true, Ok, Some};
ghost use Rattle.pst_expr.specs.Tree.{view};
ghost use Rattle.pst_domain.specs.Bounds.{AreUpright, IsInside, HasVariablesBelow};
ghost use Rattle.pst_narrow.specs.Narrowing.{IsStep, GivesIn};
ghost use Rattle.pst_narrow.specs.Cuts.{IsSide, side};

use crate::meet::meet;
use crate::trail::Trail;
use pst_base::NoMemory;
use pst_domain::Bounds;
use pst_expr::{Expr, Span};

/// Cuts the bounds to those under which the value of the expression can lie in `wanted`, false where it can't.
pub fn require(
    expr: &Expr,
    wanted: Span,
    bounds: &mut Bounds,
    trail: &mut Trail,
) -> Result<bool, NoMemory>
    requires upright { AreUpright bounds.old }
    requires variables { HasVariablesBelow (length bounds.old) (view expr.now) }
    ensures step { IsStep (GivesIn (view expr.now) wanted) bounds.old bounds.new trail.old trail.new result }
    ensures side { result ≡ Ok true → IsSide (view expr.now) → IsInside (side (view expr.now) bounds.new) (Some wanted) }
{
    match expr {
        Expr::Constant(number) => Ok(wanted.low <= *number && *number <= wanted.high),
        Expr::Variable(variable) => meet(*variable, wanted, bounds, trail),
        _ => Ok(true),
    }
}
