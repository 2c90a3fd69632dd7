// What is wanted of the operands of an operator.
ghost use Rattle.std.specs.Prelude.{◌≡◌, length, true};
ghost use Rattle.pst_expr.specs.Spans.{IsInSpan};
ghost use Rattle.pst_expr.specs.Tree.{Expression, view, Binary};
ghost use Rattle.pst_domain.specs.Bounds.{AreUpright, HasVariablesBelow};
ghost use Rattle.pst_narrow.specs.Solutions.{IsMet};
ghost use Rattle.pst_narrow.specs.Narrowing.{GivesIn};
ghost use Rattle.pst_narrow.specs.Chains.{HoldsLast};
ghost use Rattle.pst_narrow.specs.Demands.{GivesFalse, Follows, AndFollows, OrFollows, ImpliesFollows};

use crate::chain::left_span;
use crate::operands::operand_spans;
use crate::parts::Parts;
use crate::truth::{FALSE, is_surely_true, truth_span};
use pst_domain::{Bounds, refused};
use pst_expr::{BinaryOp, Expr, Span};

/// What is wanted of a left and a right operand.
#[derive(Clone, Copy)]
pub enum Demand {
    /// Nothing is known.
    Unknown,
    /// A value of the left one in a span.
    LeftIn(Span),
    /// Values of both in spans.
    BothIn(Parts),
}

// Whether a span lacks a number.
fn lacks(span: Span, number: i64) -> bool
    ensures { result ≡ true → IsInSpan number span → ⊥ }
{
    number < span.low || span.high < number
}

// The left one is true.
fn left_true(left: &Expr, bounds: &Bounds) -> Demand
    requires upright { AreUpright bounds.now }
    requires left { HasVariablesBelow (length bounds.now) (view left.now) }
    ensures { (q : Expression) → Follows (IsMet (view left.now)) (view left.now) q bounds.now result }
{
    match truth_span(left, bounds) {
        Some(span) => Demand::LeftIn(span),
        None => Demand::Unknown,
    }
}

// The left one is true and the right one is false.
fn left_true_alone(left: &Expr, bounds: &Bounds) -> Demand
    requires upright { AreUpright bounds.now }
    requires left { HasVariablesBelow (length bounds.now) (view left.now) }
    ensures { (q : Expression) → Follows (λ values. IsMet (view left.now) values × GivesFalse q values) (view left.now) q bounds.now result }
{
    match truth_span(left, bounds) {
        Some(span) => Demand::BothIn(Parts {
            left: span,
            right: FALSE,
        }),
        None => Demand::Unknown,
    }
}

// The right one is true and the left one is false.
fn right_true_alone(right: &Expr, bounds: &Bounds) -> Demand
    requires upright { AreUpright bounds.now }
    requires right { HasVariablesBelow (length bounds.now) (view right.now) }
    ensures { (p : Expression) → Follows (λ values. GivesFalse p values × IsMet (view right.now) values) p (view right.now) bounds.now result }
{
    match truth_span(right, bounds) {
        Some(span) => Demand::BothIn(Parts {
            left: FALSE,
            right: span,
        }),
        None => Demand::Unknown,
    }
}

// Both are true.
fn both_true(left: &Expr, right: &Expr, bounds: &Bounds) -> Demand
    requires upright { AreUpright bounds.now }
    requires left { HasVariablesBelow (length bounds.now) (view left.now) }
    requires right { HasVariablesBelow (length bounds.now) (view right.now) }
    ensures { Follows (λ values. IsMet (view left.now) values × IsMet (view right.now) values) (view left.now) (view right.now) bounds.now result }
{
    let Some(left) = truth_span(left, bounds) else {
        return Demand::Unknown;
    };
    match truth_span(right, bounds) {
        Some(right) => Demand::BothIn(Parts { left, right }),
        None => Demand::Unknown,
    }
}

// `left && right`
fn and_demand(left: &Expr, right: &Expr, wanted: Span, bounds: &Bounds) -> Demand
    requires upright { AreUpright bounds.now }
    requires left { HasVariablesBelow (length bounds.now) (view left.now) }
    requires right { HasVariablesBelow (length bounds.now) (view right.now) }
    ensures { AndFollows (view left.now) (view right.now) wanted bounds.now result }
{
    if lacks(wanted, 0) {
        return both_true(left, right, bounds);
    }
    if !lacks(wanted, 1) {
        return Demand::Unknown;
    }
    if is_surely_true(right, bounds) {
        return Demand::LeftIn(FALSE);
    }
    if is_surely_true(left, bounds) {
        return left_true_alone(left, bounds);
    }
    Demand::Unknown
}

// `left || right`
fn or_demand(left: &Expr, right: &Expr, wanted: Span, bounds: &Bounds) -> Demand
    requires upright { AreUpright bounds.now }
    requires left { HasVariablesBelow (length bounds.now) (view left.now) }
    requires right { HasVariablesBelow (length bounds.now) (view right.now) }
    ensures { OrFollows (view left.now) (view right.now) wanted bounds.now result }
{
    if lacks(wanted, 1) {
        return Demand::BothIn(Parts {
            left: FALSE,
            right: FALSE,
        });
    }
    if !lacks(wanted, 0) {
        return Demand::Unknown;
    }
    if refused(right, bounds) {
        return left_true(left, bounds);
    }
    if refused(left, bounds) {
        return right_true_alone(right, bounds);
    }
    Demand::Unknown
}

// `left -> right`
fn implies_demand(left: &Expr, right: &Expr, wanted: Span, bounds: &Bounds) -> Demand
    requires upright { AreUpright bounds.now }
    requires left { HasVariablesBelow (length bounds.now) (view left.now) }
    requires right { HasVariablesBelow (length bounds.now) (view right.now) }
    ensures { ImpliesFollows (view left.now) (view right.now) wanted bounds.now result }
{
    if lacks(wanted, 1) {
        return left_true_alone(left, bounds);
    }
    if !lacks(wanted, 0) {
        return Demand::Unknown;
    }
    if refused(right, bounds) {
        return Demand::LeftIn(FALSE);
    }
    if is_surely_true(left, bounds) {
        return both_true(left, right, bounds);
    }
    Demand::Unknown
}

// An operator that isn't logical.
fn strict_demand(
    op: BinaryOp,
    left: &Expr,
    right: &Expr,
    known: &[Option<Span>],
    wanted: Span,
    bounds: &Bounds,
) -> Demand
    requires upright { AreUpright bounds.now }
    requires left { HasVariablesBelow (length bounds.now) (view left.now) }
    requires right { HasVariablesBelow (length bounds.now) (view right.now) }
    requires known { HoldsLast (view left.now) known.now bounds.now }
    ensures { Follows (GivesIn (Binary op (view left.now) (view right.now)) wanted) (view left.now) (view right.now) bounds.now result }
{
    let span = left_span(left, known, bounds);
    match operand_spans(op, span, right, wanted, bounds) {
        Some(parts) => Demand::BothIn(parts),
        None => Demand::Unknown,
    }
}

/// What is wanted of the operands where the value of an operator is wanted in a span. The last of the spans that are
/// known is the left operand's.
pub fn demand_of(
    op: BinaryOp,
    left: &Expr,
    right: &Expr,
    known: &[Option<Span>],
    wanted: Span,
    bounds: &Bounds,
) -> Demand
    requires upright { AreUpright bounds.now }
    requires left { HasVariablesBelow (length bounds.now) (view left.now) }
    requires right { HasVariablesBelow (length bounds.now) (view right.now) }
    requires known { HoldsLast (view left.now) known.now bounds.now }
    ensures { Follows (GivesIn (Binary op (view left.now) (view right.now)) wanted) (view left.now) (view right.now) bounds.now result }
{
    match op {
        BinaryOp::And => and_demand(left, right, wanted, bounds),
        BinaryOp::Or => or_demand(left, right, wanted, bounds),
        BinaryOp::Implies => implies_demand(left, right, wanted, bounds),
        _ => strict_demand(op, left, right, known, wanted, bounds),
    }
}
