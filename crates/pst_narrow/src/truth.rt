// What is sure of the truth of an expression.
ghost use Rattle.std.specs.Prelude.{◌≡◌, length, true, IfSome};
ghost use Rattle.pst_expr.specs.Tree.{view};
ghost use Rattle.pst_domain.specs.Bounds.{AreUpright, HasVariablesBelow};
ghost use Rattle.pst_narrow.specs.Logic.{IsSurelyTrue, GivesTruthIn};

use pst_domain::{Bounds, span_of};
use pst_expr::{Expr, Span, UnaryOp};
use pst_operands::operand_of;

/// What is false.
pub const FALSE: Span = Span { low: 0, high: 0 };

/// Whether an expression is true under all values within the bounds that give it a value.
pub fn is_surely_true(expr: &Expr, bounds: &Bounds) -> bool
    requires upright { AreUpright bounds.now }
    requires variables { HasVariablesBelow (length bounds.now) (view expr.now) }
    ensures { result ≡ true → IsSurelyTrue (view expr.now) bounds.now }
{
    match span_of(expr, bounds) {
        Some(span) => span.low > 0 || span.high < 0,
        None => false,
    }
}

/// The span of an expression's values other than 0, as far as an end is 0; `None` where it has no value.
pub fn truth_span(expr: &Expr, bounds: &Bounds) -> Option<Span>
    requires upright { AreUpright bounds.now }
    requires variables { HasVariablesBelow (length bounds.now) (view expr.now) }
    ensures { IfSome result (λ span. GivesTruthIn (view expr.now) span bounds.now) }
{
    let Some(span) = span_of(expr, bounds) else {
        return None;
    };
    Some(operand_of(UnaryOp::Not, span, FALSE))
}
