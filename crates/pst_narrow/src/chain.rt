// The way down the left operands of an expression, and the spans of the sums that stand there, each computed once.
ghost use Rattle.std.specs.Prelude.{◌≡◌, ◌-◌, ◌<◌, [], length, take, IfOk, OnOk};
ghost use Rattle.pst_expr.specs.Tree.{view};
ghost use Rattle.pst_domain.specs.Bounds.{AreUpright, HasVariablesBelow};
ghost use Rattle.pst_domain.specs.Laws.{HoldsValues};
ghost use Rattle.pst_narrow.specs.Chains.{HoldLeftParts, HoldsLast};

use crate::sums::{difference, sum};
use pst_base::NoMemory;
use pst_domain::{Bounds, span_of};
use pst_expr::{BinaryOp, Expr, Span};
use std::alloc::Global;

// How many operators may stand along the left operands where an expression is looked through.
const LONGEST: usize = 1_000;

/// Whether more operators stand along the left operands of an expression than are looked through.
pub fn is_long(expr: &Expr) -> bool {
    expr.left_end().0 > LONGEST
}

// The span of an expression, beside those of the left operands of the sums that stand along its left operands, the
// innermost first.
fn add_left_spans(
    expr: &Expr,
    bounds: &Bounds,
    spans: &mut Vec<Option<Span>>,
) -> Result<Option<Span>, NoMemory>
    requires upright { AreUpright bounds.now }
    requires variables { HasVariablesBelow (length bounds.now) (view expr.now) }
    requires none { spans.old.items ≡ [] }
    ensures span { IfOk result (λ span. HoldsValues span (view expr.now) bounds.now) }
    ensures parts { OnOk result (HoldLeftParts (view expr.now) spans.new.items bounds.now) }
{
    let Expr::Binary(op, left, right) = expr else {
        return Ok(span_of(expr, bounds));
    };
    match op {
        BinaryOp::Add => {
            let left = add_left_spans(left, bounds, spans)?;
            spans.push(left)?;
            Ok(sum(left, span_of(right, bounds)))
        }
        BinaryOp::Sub => {
            let left = add_left_spans(left, bounds, spans)?;
            spans.push(left)?;
            Ok(difference(left, span_of(right, bounds)))
        }
        _ => Ok(span_of(expr, bounds)),
    }
}

// Whether an expression is a sum or a difference.
fn is_sum(expr: &Expr) -> bool {
    match expr {
        Expr::Binary(op, _, _) => *op == BinaryOp::Add || *op == BinaryOp::Sub,
        _ => false,
    }
}

/// The spans of the left operand and of those along it, the innermost first, where the left operand is a sum; else none.
pub fn left_spans(
    alloc: Global,
    expr: &Expr,
    bounds: &Bounds,
) -> Result<Vec<Option<Span>>, NoMemory>
    requires upright { AreUpright bounds.now }
    requires variables { HasVariablesBelow (length bounds.now) (view expr.now) }
    ensures { IfOk result (λ spans. HoldLeftParts (view expr.now) spans.items bounds.now) }
{
    let Expr::Binary(_op, left, _right) = expr else {
        return Ok(Vec::new(alloc));
    };
    if !is_sum(left) || is_long(expr) {
        return Ok(Vec::new(alloc));
    }
    let mut spans = Vec::new(alloc);
    let span = add_left_spans(left, bounds, &mut spans)?;
    spans.push(span)?;
    Ok(spans)
}

/// The span of a left operand: the last one of those that are known, else computed.
pub fn left_span(left: &Expr, known: &[Option<Span>], bounds: &Bounds) -> Option<Span>
    requires upright { AreUpright bounds.now }
    requires left { HasVariablesBelow (length bounds.now) (view left.now) }
    requires known { HoldsLast (view left.now) known.now bounds.now }
    ensures { HoldsValues result (view left.now) bounds.now }
{
    match known.last() {
        Some(span) => *span,
        None => span_of(left, bounds),
    }
}

/// The spans that are known of the left operand's own parts.
pub fn before_last(known: &[Option<Span>]) -> &[Option<Span>]
    ensures { result.now ≡ take (length known.now - 1) known.now }
{
    match known.split_last() {
        Some((_, before)) => before,
        None => known,
    }
}
