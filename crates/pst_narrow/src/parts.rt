// Spans of two operands.
ghost use Rattle.std.specs.Prelude.{◌≡◌, ◌<◌, ◌≤ℤ◌, pos, length, true, Ok, Some};
ghost use Rattle.pst_expr.specs.Tree.{view};
ghost use Rattle.pst_domain.specs.Bounds.{AreUpright, IsInside, HasVariablesBelow};
ghost use Rattle.pst_narrow.specs.Narrowing.{IsStep};
ghost use Rattle.pst_narrow.specs.Cuts.{IsSide, side};
ghost use Rattle.pst_narrow.specs.Parts.{GiveIn, AreSpansOf, AreCutAhead};

use crate::demand::demand_span;
use crate::trail::Trail;
use pst_base::NoMemory;
use pst_domain::{Bounds, span_of};
use pst_expr::{Expr, Span};

/// The spans of a left and a right operand.
#[derive(Clone, Copy)]
pub struct Parts {
    pub left: Span,
    pub right: Span,
}

/// The spans of two expressions, `None` where one of them certainly has no value.
pub fn spans_of(left: &Expr, right: &Expr, bounds: &Bounds) -> Option<Parts>
    requires upright { AreUpright bounds.now }
    requires left { HasVariablesBelow (length bounds.now) (view left.now) }
    requires right { HasVariablesBelow (length bounds.now) (view right.now) }
    ensures { AreSpansOf (view left.now) (view right.now) bounds.now result }
{
    let left = span_of(left, bounds)?;
    let right = span_of(right, bounds)?;
    Some(Parts { left, right })
}

/// Cuts the bounds to those under which two expressions have values in these spans, false where they can't.
pub fn require_both(
    left: &Expr,
    right: &Expr,
    parts: Parts,
    bounds: &mut Bounds,
    trail: &mut Trail,
) -> Result<bool, NoMemory>
    requires upright { AreUpright bounds.old }
    requires left { HasVariablesBelow (length bounds.old) (view left.now) }
    requires right { HasVariablesBelow (length bounds.old) (view right.now) }
    ensures step { IsStep (GiveIn (view left.now) (view right.now) parts) bounds.old bounds.new trail.old trail.new result }
    ensures left { result ≡ Ok true → IsSide (view left.now) → IsInside (side (view left.now) bounds.new) (Some parts.left) }
    ensures right { result ≡ Ok true → IsSide (view right.now) → IsInside (side (view right.now) bounds.new) (Some parts.right) }
{
    if !demand_span(right, parts.right, bounds, trail)? {
        return Ok(false);
    }
    demand_span(left, parts.left, bounds, trail)
}

/// The spans of x and y, of which x + gap <= y, `None` where there are none.
pub fn parts_ahead(spans: Parts, gap: i64) -> Option<Parts>
    requires { pos 0 ≤ℤ gap }
    ensures { AreCutAhead gap spans.left spans.right result }
{
    let Some(high) = spans.right.high.checked_sub(gap) else {
        return None;
    };
    let Some(low) = spans.left.low.checked_add(gap) else {
        return None;
    };
    Some(Parts {
        left: Span {
            low: spans.left.low,
            high,
        },
        right: Span {
            low,
            high: spans.right.high,
        },
    })
}
