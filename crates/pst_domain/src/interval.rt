// The span of an expression.
ghost use Rattle.std.specs.Prelude.{◌≡◌, ℕ, ◌<◌, ◌≤◌, length, true, IfSome};
ghost use Rattle.pst_expr.specs.Tree.{view};
ghost use Rattle.pst_expr.specs.Left.{left_depth};
ghost use Rattle.pst_domain.specs.Bounds.{AreUpright, HasVariablesBelow};
ghost use Rattle.pst_domain.specs.Interval.{interval, interval_above, is_refused};
ghost use Rattle.pst_domain.specs.Laws.{HoldsValues, IsNeverTrue};

use crate::bounds::Bounds;
use crate::cut::{span_of_value, uncut};
use crate::element::element;
use crate::laws::spans_hold_values;
use crate::operators::{binary, is_decided_by_left, unary};
use crate::truth::is_zero;
use pst_expr::{Expr, Span};

/// A span that holds each value of the expression where the variables have values within their bounds, or `None` where
/// the expression certainly has none.
///
/// It takes no memory. A chain of n operators along the left operands takes stack for log n of them.
pub fn span_of(expr: &Expr, bounds: &Bounds) -> Option<Span>
    requires upright { AreUpright bounds.now }
    requires variables { HasVariablesBelow (length bounds.now) (view expr.now) }
    ensures table { result ≡ interval (view expr.now) bounds.now }
    ensures sound { HoldsValues result (view expr.now) bounds.now }
{
    spans_hold_values();
    if let Some(span) = leaf_span(expr, bounds) {
        return span;
    }
    interval(expr, bounds)
}

/// Whether a constraint certainly fails under values within the bounds: its span is 0 to 0 or `None`. It takes no memory.
pub fn refused(expr: &Expr, bounds: &Bounds) -> bool
    requires upright { AreUpright bounds.now }
    requires variables { HasVariablesBelow (length bounds.now) (view expr.now) }
    ensures table { result ≡ is_refused (interval (view expr.now) bounds.now) }
    ensures sound { result ≡ true → IsNeverTrue (view expr.now) bounds.now }
{
    match span_of(expr, bounds) {
        None => true,
        Some(span) => is_zero(span),
    }
}

// The span of a constant or of a variable, `None` where the expression is neither. Most operands are one of them, and
// are read without a recursive call.
fn leaf_span(expr: &Expr, bounds: &Bounds) -> Option<Option<Span>>
    requires { AreUpright bounds.now }
    ensures { IfSome result (λ span. span ≡ interval (view expr.now) bounds.now) }
{
    match expr {
        Expr::Constant(number) => Some(span_of_value(Some(*number))),
        Expr::Variable(variable) => Some(uncut(bounds.get(*variable))),
        _ => None,
    }
}

#[cycle(interval)]
fn interval(expr: &Expr, bounds: &Bounds) -> Option<Span>
    requires { AreUpright bounds.now }
    ensures { result ≡ interval (view expr.now) bounds.now }
{
    match expr {
        Expr::Constant(number) => span_of_value(Some(*number)),
        Expr::Variable(variable) => uncut(bounds.get(*variable)),
        Expr::Unary(op, operand) => unary(*op, interval(operand, bounds)?),
        Expr::Binary(_, _, _) => {
            let (depth, part) = expr.left_end();
            if let Some(below) = leaf_span(part, bounds) {
                return interval_above(expr, depth, below, bounds);
            }
            interval_above(expr, depth, interval(part, bounds), bounds)
        }
        Expr::Element(first, count, index) => {
            element(bounds, *first, *count, interval(index, bounds)?)
        }
    }
}

// The span of `expr`, where `below` is the span of the part that stands `depth` operators down its left operands.
// Halving the way down keeps the recursion short.
#[cycle(interval)]
fn interval_above(expr: &Expr, depth: usize, below: Option<Span>, bounds: &Bounds) -> Option<Span>
    requires upright { AreUpright bounds.now }
    requires some { 0 < depth }
    requires within { depth ≤ left_depth (view expr.now) }
    ensures { result ≡ interval_above depth (view expr.now) below bounds.now }
{
    if depth > 1 {
        let upper = depth / 2;
        let middle = expr.left_part(upper);
        let below = interval_above(middle, depth - upper, below, bounds);
        return interval_above(expr, upper, below, bounds);
    }
    let Expr::Binary(op, _, right) = expr else {
        unreachable!()
    };
    let left = below?;
    if is_decided_by_left(*op, left) {
        return binary(*op, left, None);
    }
    if let Some(right) = leaf_span(right, bounds) {
        return binary(*op, left, right);
    }
    binary(*op, left, interval(right, bounds))
}
