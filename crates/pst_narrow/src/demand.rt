// The variables of an expression, cut through its operators.
ghost use Rattle.std.specs.Prelude.{◌≡◌, ◌<◌, length, true, Ok, Some};
ghost use Rattle.pst_expr.specs.Tree.{view};
ghost use Rattle.pst_domain.specs.Bounds.{AreUpright, IsInside, HasVariablesBelow};
ghost use Rattle.pst_narrow.specs.Narrowing.{IsStep, GivesIn};
ghost use Rattle.pst_narrow.specs.Cuts.{IsSide, side};
ghost use Rattle.pst_narrow.specs.Chains.{HoldLeftParts};

use crate::chain::{before_last, is_long, left_spans};
use crate::element::{index_span, meet_element};
use crate::logic::{Demand, demand_of};
use crate::operands::operand_span;
use crate::require::require;
use crate::trail::Trail;
use pst_base::NoMemory;
use pst_domain::Bounds;
use pst_expr::{Expr, Span};

// Cuts the bounds as `demand_span` does. The spans that are known are those of the left operands, the innermost first.
fn demand_known(
    expr: &Expr,
    wanted: Span,
    known: &[Option<Span>],
    bounds: &mut Bounds,
    trail: &mut Trail,
) -> Result<bool, NoMemory>
    requires upright { AreUpright bounds.old }
    requires variables { HasVariablesBelow (length bounds.old) (view expr.now) }
    requires known { HoldLeftParts (view expr.now) known.now bounds.old }
    ensures step { IsStep (GivesIn (view expr.now) wanted) bounds.old bounds.new trail.old trail.new result }
    ensures side { result ≡ Ok true → IsSide (view expr.now) → IsInside (side (view expr.now) bounds.new) (Some wanted) }
{
    match expr {
        Expr::Unary(op, operand) => {
            let Some(span) = operand_span(*op, operand, wanted, bounds) else {
                return Ok(true);
            };
            demand_known(operand, span, &[], bounds, trail)
        }
        Expr::Binary(op, left, right) => {
            if known.is_empty() && is_long(expr) {
                return Ok(true);
            }
            match demand_of(*op, left, right, known, wanted, bounds) {
                Demand::Unknown => Ok(true),
                Demand::LeftIn(span) => demand_known(left, span, &[], bounds, trail),
                Demand::BothIn(parts) => {
                    if !demand_known(right, parts.right, &[], bounds, trail)? {
                        return Ok(false);
                    }
                    demand_known(left, parts.left, before_last(known), bounds, trail)
                }
            }
        }
        Expr::Element(first, count, index) => {
            let Some(places) = index_span(*first, *count, index, wanted, bounds) else {
                return Ok(true);
            };
            if !demand_known(index, places, &[], bounds, trail)? {
                return Ok(false);
            }
            meet_element(*first, *count, places, wanted, bounds, trail)
        }
        _ => require(expr, wanted, bounds, trail),
    }
}

/// Cuts the bounds to those under which the value of the expression can lie in `wanted`, false where it can't.
///
/// The spans of the sums along a sum's left operands are computed once.
pub fn demand_span(
    expr: &Expr,
    wanted: Span,
    bounds: &mut Bounds,
    trail: &mut Trail,
) -> Result<bool, NoMemory>
    requires upright { AreUpright bounds.old }
    requires variables { HasVariablesBelow (length bounds.old) (view expr.now) }
    ensures step { IsStep (GivesIn (view expr.now) wanted) bounds.old bounds.new trail.old trail.new result }
    ensures side { result ≡ Ok true → IsSide (view expr.now) → IsInside (side (view expr.now) bounds.new) (Some wanted) }
{
    let known = left_spans(trail.alloc(), expr, bounds)?;
    demand_known(expr, wanted, known.as_slice(), bounds, trail)
}
