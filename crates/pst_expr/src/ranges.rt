// Spans of whole numbers, and domains.
ghost use Rattle.std.specs.Prelude.{◌≡◌, ℕ, ◌<◌, ◌≤ℤ◌, ◌+ℤ◌, pos, ◌^◌, Some, slice_get};
ghost use Rattle.pst_expr.specs.Spans.{IsDomain, count_of, size_of, values};

use std::marker::Model;

/// The whole numbers from `low` to `high`, both included.
#[derive(Clone, Copy, Debug, PartialEq, Eq)]
pub struct Span {
    /// The least number.
    pub low: i64,
    /// The greatest number.
    pub high: i64,
}

impl Span {
    /// How many numbers the span has.
    pub fn count(self) -> u64
        requires upright { self.low ≤ℤ self.high }
        requires few { count_of self < 2 ^ 64 }
        ensures { result ≡ count_of self }
    {
        self.high.abs_diff(self.low) + 1
    }

    /// The number at this index in ascending order, `low` at index 0.
    pub fn at(self, index: u64) -> i64
        requires upright { self.low ≤ℤ self.high }
        requires within { index < count_of self }
        ensures { result ≡ self.low +ℤ pos index }
    {
        self.low.checked_add_unsigned(index).unwrap()
    }
}

/// A set of whole numbers: spans in ascending order that don't meet, with fewer than 2^64 numbers and at least one.
#[derive(Debug, Drop)]
pub struct Domain {
    spans: Vec<Span>,
}

impl Model for Domain {
    ghost use Rattle.std.specs.Prelude.{List};
    ghost use Rattle.pst_expr.specs.declared.ranges.Span.{Span};
    ghost use Rattle.pst_expr.specs.Spans.{IsDomain};

    ghost Value = { List Span };

    ghost view = { λ d. d.spans.items };

    ghost invariant = { λ d. IsDomain d.spans.items };
}

impl Domain {
    /// The domain of these spans. It takes no memory.
    pub fn new(spans: Vec<Span>) -> Domain
        requires { IsDomain spans.items }
        ensures { result ≡ spans.items }
    {
        Domain { spans }
    }

    /// The spans, in a vector. It takes no memory.
    pub fn into_spans(self) -> Vec<Span>
        ensures spans { result.items ≡ self }
        ensures domain { IsDomain result.items }
    {
        self.spans
    }

    /// The spans, in ascending order.
    pub fn spans(&self) -> &[Span]
        ensures spans { result.now ≡ self.now }
        ensures domain { IsDomain self.now }
    {
        self.spans.as_slice()
    }

    /// How many numbers the domain has.
    pub fn size(&self) -> u64
        ensures { result ≡ size_of self.now }
    {
        let mut size = 0;
        for span in self.spans() {
            size += span.count();
        }
        size
    }

    /// The number at this index in ascending order, the least one at index 0.
    pub fn at(&self, index: u64) -> i64
        requires { index < size_of self.now }
        ensures { slice_get (values self.now) index ≡ Some result }
    {
        let mut rest = index;
        for span in self.spans() {
            let count = span.count();
            if rest < count {
                return span.at(rest);
            }
            rest -= count;
        }
        unreachable!()
    }
}
