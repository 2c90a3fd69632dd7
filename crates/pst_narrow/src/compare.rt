// Comparisons of two expressions.
ghost use Rattle.std.specs.Prelude.{◌≡◌, ◌<◌, ◌≤ℤ◌, pos, length, true, Ok, Some};
ghost use Rattle.pst_expr.specs.Tree.{view, Binary};
ghost use Rattle.pst_domain.specs.Bounds.{AreUpright, IsInside, HasVariablesBelow};
ghost use Rattle.pst_narrow.specs.Narrowing.{IsStep, AreAhead, AreEqual};
ghost use Rattle.pst_narrow.specs.Solutions.{IsMet};
ghost use Rattle.pst_narrow.specs.Cuts.{IsSide, IsCut, IsCutEqual, CutIsMade};

use crate::parts::{Parts, parts_ahead, require_both, spans_of};
use crate::trail::Trail;
use pst_base::NoMemory;
use pst_domain::Bounds;
use pst_expr::{BinaryOp, Expr};

/// Cuts the bounds to those under which `left + gap <= right` can hold, false where it can't.
pub fn ahead(
    left: &Expr,
    right: &Expr,
    gap: i64,
    bounds: &mut Bounds,
    trail: &mut Trail,
) -> Result<bool, NoMemory>
    requires gap { pos 0 ≤ℤ gap }
    requires upright { AreUpright bounds.old }
    requires left { HasVariablesBelow (length bounds.old) (view left.now) }
    requires right { HasVariablesBelow (length bounds.old) (view right.now) }
    ensures step { IsStep (AreAhead gap (view left.now) (view right.now)) bounds.old bounds.new trail.old trail.new result }
    ensures cut { result ≡ Ok true → IsSide (view left.now) → IsSide (view right.now) → IsCut gap (view left.now) (view right.now) bounds.old bounds.new }
{
    let Some(spans) = spans_of(left, right, bounds) else {
        return Ok(false);
    };
    match parts_ahead(spans, gap) {
        None => Ok(false),
        Some(parts) => require_both(left, right, parts, bounds, trail),
    }
}

/// Cuts the bounds to those under which `left == right` can hold, false where it can't.
pub fn equal(
    left: &Expr,
    right: &Expr,
    bounds: &mut Bounds,
    trail: &mut Trail,
) -> Result<bool, NoMemory>
    requires upright { AreUpright bounds.old }
    requires left { HasVariablesBelow (length bounds.old) (view left.now) }
    requires right { HasVariablesBelow (length bounds.old) (view right.now) }
    ensures step { IsStep (AreEqual (view left.now) (view right.now)) bounds.old bounds.new trail.old trail.new result }
    ensures cut { result ≡ Ok true → IsSide (view left.now) → IsSide (view right.now) → IsCutEqual (view left.now) (view right.now) bounds.old bounds.new }
{
    let Some(spans) = spans_of(left, right, bounds) else {
        return Ok(false);
    };
    let parts = Parts {
        left: spans.right,
        right: spans.left,
    };
    require_both(left, right, parts, bounds, trail)
}

/// Cuts the bounds to those under which a comparison can hold, false where it can't; other operators cut nothing.
pub fn compare(
    op: BinaryOp,
    left: &Expr,
    right: &Expr,
    bounds: &mut Bounds,
    trail: &mut Trail,
) -> Result<bool, NoMemory>
    requires upright { AreUpright bounds.old }
    requires left { HasVariablesBelow (length bounds.old) (view left.now) }
    requires right { HasVariablesBelow (length bounds.old) (view right.now) }
    ensures step { IsStep (IsMet (Binary op (view left.now) (view right.now))) bounds.old bounds.new trail.old trail.new result }
    ensures cut { result ≡ Ok true → CutIsMade (Binary op (view left.now) (view right.now)) bounds.old bounds.new }
{
    match op {
        BinaryOp::Less => ahead(left, right, 1, bounds, trail),
        BinaryOp::LessOrEqual => ahead(left, right, 0, bounds, trail),
        BinaryOp::Greater => ahead(right, left, 1, bounds, trail),
        BinaryOp::GreaterOrEqual => ahead(right, left, 0, bounds, trail),
        BinaryOp::Equal => equal(left, right, bounds, trail),
        _ => Ok(true),
    }
}
