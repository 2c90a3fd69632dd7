// Comparisons of spans.
ghost use Rattle.std.specs.Prelude.{◌≡◌};
ghost use Rattle.pst_domain.specs.Comparison.{decided, less_truth, less_or_equal_truth, equal_truth};

use crate::truth::Truth;
use pst_expr::Span;

// True where all pairs compare, and false where none does.
fn decided(all: bool, none: bool) -> Truth
    ensures { result ≡ decided all none }
{
    if all {
        Truth::True
    } else if none {
        Truth::False
    } else {
        Truth::Either
    }
}

/// `left < right`
pub fn less(left: Span, right: Span) -> Truth
    ensures { result ≡ less_truth left right }
{
    decided(left.high < right.low, right.high <= left.low)
}

/// `left <= right`
pub fn less_or_equal(left: Span, right: Span) -> Truth
    ensures { result ≡ less_or_equal_truth left right }
{
    decided(left.high <= right.low, right.high < left.low)
}

/// `left == right`
pub fn equal(left: Span, right: Span) -> Truth
    ensures { result ≡ equal_truth left right }
{
    decided(
        (left.low == right.high) & (left.high == right.low),
        (left.high < right.low) | (right.high < left.low),
    )
}
