// Narrowing by one constraint.
ghost use Rattle.std.specs.Prelude.{◌≡◌, ◌<◌, length, true, Ok};
ghost use Rattle.pst_expr.specs.Tree.{view};
ghost use Rattle.pst_domain.specs.Bounds.{AreUpright, HasVariablesBelow};
ghost use Rattle.pst_narrow.specs.Solutions.{IsMet};
ghost use Rattle.pst_narrow.specs.Narrowing.{IsStep};
ghost use Rattle.pst_narrow.specs.Cuts.{CutIsMade};

use crate::chain::is_long;
use crate::compare::compare;
use crate::demand::demand_span;
use crate::trail::Trail;
use crate::truth::{FALSE, is_surely_true, truth_span};
use pst_base::NoMemory;
use pst_domain::{Bounds, refused};
use pst_expr::{BinaryOp, Expr};

// Cuts the bounds to those under which an expression can be true, false where it can't.
fn demand_truth(expr: &Expr, bounds: &mut Bounds, trail: &mut Trail) -> Result<bool, NoMemory>
    requires upright { AreUpright bounds.old }
    requires variables { HasVariablesBelow (length bounds.old) (view expr.now) }
    ensures { IsStep (IsMet (view expr.now)) bounds.old bounds.new trail.old trail.new result }
{
    let Some(span) = truth_span(expr, bounds) else {
        return Ok(true);
    };
    demand_span(expr, span, bounds, trail)
}

// Cuts the bounds to those under which a part of a constraint can hold, false where it can't. `is_short` tells that no
// more operators stand along its left operands than are looked through.
fn revise_part(
    constraint: &Expr,
    is_short: bool,
    bounds: &mut Bounds,
    trail: &mut Trail,
) -> Result<bool, NoMemory>
    requires upright { AreUpright bounds.old }
    requires variables { HasVariablesBelow (length bounds.old) (view constraint.now) }
    ensures step { IsStep (IsMet (view constraint.now)) bounds.old bounds.new trail.old trail.new result }
    ensures cut { result ≡ Ok true → CutIsMade (view constraint.now) bounds.old bounds.new }
{
    let Expr::Binary(op, left, right) = constraint else {
        return demand_truth(constraint, bounds, trail);
    };
    match op {
        BinaryOp::And => {
            if !is_short && is_long(constraint) {
                return Ok(true);
            }
            if !revise_part(right, false, bounds, trail)? {
                return Ok(false);
            }
            revise_part(left, true, bounds, trail)
        }
        BinaryOp::Or => {
            if !is_short && is_long(constraint) {
                return Ok(true);
            }
            if refused(right, bounds) {
                return revise_part(left, true, bounds, trail);
            }
            if refused(left, bounds) {
                return revise_part(right, false, bounds, trail);
            }
            Ok(true)
        }
        BinaryOp::Implies => {
            if is_surely_true(left, bounds) {
                return revise_part(right, false, bounds, trail);
            }
            if refused(right, bounds) {
                return demand_span(left, FALSE, bounds, trail);
            }
            Ok(true)
        }
        BinaryOp::NotEqual => demand_truth(constraint, bounds, trail),
        _ => compare(*op, left, right, bounds, trail),
    }
}

/// Cuts the bounds to those under which a constraint can hold, false where it can't.
pub fn revise(constraint: &Expr, bounds: &mut Bounds, trail: &mut Trail) -> Result<bool, NoMemory>
    requires upright { AreUpright bounds.old }
    requires variables { HasVariablesBelow (length bounds.old) (view constraint.now) }
    ensures step { IsStep (IsMet (view constraint.now)) bounds.old bounds.new trail.old trail.new result }
    ensures cut { result ≡ Ok true → CutIsMade (view constraint.now) bounds.old bounds.new }
{
    revise_part(constraint, false, bounds, trail)
}
