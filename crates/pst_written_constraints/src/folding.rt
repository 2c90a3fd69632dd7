//! Sums and differences of constants, and elements at them, as what they come to.
ghost use Rattle.std.specs.Prelude.{◌≡◌, ◌<◌, pos, IfSome};
ghost use Rattle.pst_expr.specs.Tree.{Constant, Variable, Binary, Element, view};
ghost use Rattle.pst_written_constraints.specs.Alike.{AreAlike};

use pst_expr::{BinaryOp, Expr};

/// The sum or the difference of two constants.
pub(crate) fn folded(op: BinaryOp, left: &Expr, right: &Expr) -> Option<i64>
    ensures { IfSome result (λ n. AreAlike (Binary op (view left.now) (view right.now)) (Constant n)) }
{
    let Expr::Constant(left) = left else {
        return None;
    };
    let Expr::Constant(right) = right else {
        return None;
    };
    match op {
        BinaryOp::Add => pst_num::add(*left, *right),
        BinaryOp::Sub => pst_num::sub(*left, *right),
        _ => None,
    }
}

// The place that an index names among so many elements.
fn place_of(index: i64, count: u32) -> Option<u32>
    ensures { IfSome result (λ place. (index ≡ pos place) × (place < count)) }
{
    if index < 0 || index >= i64::from(count) {
        return None;
    }
    Some(index as u32)
}

/// The variable of an element of an array whose first variable is this, where its index is a constant.
pub(crate) fn element_at(start: u32, count: u32, index: &Expr) -> Option<u32>
    ensures { IfSome result (λ i. AreAlike (Element start count (view index.now)) (Variable i)) }
{
    let Expr::Constant(index) = index else {
        return None;
    };
    let Some(place) = place_of(*index, count) else {
        return None;
    };
    start.checked_add(place)
}
