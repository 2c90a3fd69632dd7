// The spans of the operands of an operator, from the span that the whole is to lie in.
ghost use Rattle.std.specs.Prelude.{◌≡◌, ◌<◌, ℤ, length, IfSome};
ghost use Rattle.pst_expr.specs.Tree.{Expression, view};
ghost use Rattle.pst_domain.specs.Bounds.{AreUpright, AreWithin, HasVariablesBelow};
ghost use Rattle.pst_domain.specs.Laws.{HoldsValues};
ghost use Rattle.pst_narrow.specs.Operands.{needs_both, GiveOperands, GivesOperand};

use crate::parts::Parts;
use pst_domain::{Bounds, span_of};
use pst_expr::{BinaryOp, Expr, Span, UnaryOp};
use pst_operands::{Operands, operand_of, operands_of};

// Whether an operator has a value only where both its operands have one.
fn needs_both(op: BinaryOp) -> bool
    ensures { result ≡ needs_both op }
{
    match op {
        BinaryOp::And => false,
        BinaryOp::Or => false,
        BinaryOp::Implies => false,
        _ => true,
    }
}

/// The spans of the operands under which the value of an operator can lie in `wanted`, `None` where nothing is known.
/// `left` is the left operand's span.
pub fn operand_spans(
    op: BinaryOp,
    left: Option<Span>,
    right: &Expr,
    wanted: Span,
    bounds: &Bounds,
) -> Option<Parts>
    requires upright { AreUpright bounds.now }
    requires right { HasVariablesBelow (length bounds.now) (view right.now) }
    ensures { (p : Expression) → HoldsValues left p bounds.now → IfSome result (λ parts. GiveOperands op p (view right.now) wanted parts bounds.now) }
{
    if !needs_both(op) {
        return None;
    }
    let Some(left) = left else {
        return None;
    };
    let Some(right) = span_of(right, bounds) else {
        return None;
    };
    let Operands { left, right } = operands_of(op, Operands { left, right }, wanted);
    Some(Parts { left, right })
}

/// The span of the operand under which the value of an operator can lie in `wanted`, `None` where it has no value.
pub fn operand_span(op: UnaryOp, operand: &Expr, wanted: Span, bounds: &Bounds) -> Option<Span>
    requires upright { AreUpright bounds.now }
    requires operand { HasVariablesBelow (length bounds.now) (view operand.now) }
    ensures { IfSome result (λ span. GivesOperand op (view operand.now) wanted span bounds.now) }
{
    let Some(span) = span_of(operand, bounds) else {
        return None;
    };
    Some(operand_of(op, span, wanted))
}
