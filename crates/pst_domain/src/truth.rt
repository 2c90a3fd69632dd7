// What spans say of truth.
ghost use Rattle.std.specs.Prelude.{◌≡◌};
ghost use Rattle.pst_domain.specs.Truth.{truth_of_span, span_of_truth, negated, is_zero};

use pst_expr::Span;

/// What a span says of the truth of its numbers: all are false, all are true, or there are both.
#[derive(Clone, Copy, Debug, PartialEq, Eq)]
pub enum Truth {
    False,
    True,
    Either,
}

impl Truth {
    pub fn of(span: Span) -> Truth
        ensures { result ≡ truth_of_span span }
    {
        if span.low > 0 || span.high < 0 {
            Truth::True
        } else if is_zero(span) {
            Truth::False
        } else {
            Truth::Either
        }
    }

    pub fn span(self) -> Span
        ensures { result ≡ span_of_truth self }
    {
        match self {
            Truth::False => Span { low: 0, high: 0 },
            Truth::True => Span { low: 1, high: 1 },
            Truth::Either => Span { low: 0, high: 1 },
        }
    }

    pub fn negated(self) -> Truth
        ensures { result ≡ negated self }
    {
        match self {
            Truth::False => Truth::True,
            Truth::True => Truth::False,
            Truth::Either => Truth::Either,
        }
    }
}

/// Whether a span has the number 0 alone.
pub fn is_zero(span: Span) -> bool
    ensures { result ≡ is_zero span }
{
    (span.low == 0) & (span.high == 0)
}
