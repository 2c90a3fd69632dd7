// Shifts of spans.
ghost use Rattle.std.specs.Prelude.{◌≡◌};
ghost use Rattle.pst_num.specs.Shifts.{shifted_left, shifted_right};
ghost use Rattle.pst_domain.specs.Shifts.{shift_span, shift_by_some};

use crate::cut::{WHOLE, are_points, span_of_value};
use pst_expr::Span;

// The span of a shift that isn't of a point by a point.
fn shift_by_some(count: Span) -> Option<Span>
    ensures { result ≡ shift_by_some count }
{
    if count.high < 0 || count.low > 63 {
        None
    } else {
        Some(WHOLE)
    }
}

/// `left << right`
pub fn shift_left(left: Span, right: Span) -> Option<Span>
    ensures { result ≡ shift_span shifted_left left right }
{
    if are_points(left, right) {
        span_of_value(pst_num::shl(left.low, right.low))
    } else {
        shift_by_some(right)
    }
}

/// `left >> right`
pub fn shift_right(left: Span, right: Span) -> Option<Span>
    ensures { result ≡ shift_span shifted_right left right }
{
    if are_points(left, right) {
        span_of_value(pst_num::shr(left.low, right.low))
    } else {
        shift_by_some(right)
    }
}
