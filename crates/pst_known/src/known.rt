//! What is known of a slot.
ghost use Rattle.std.specs.Prelude.{◌≡◌};
ghost use Rattle.pst_known.specs.Known.{known_span, known_or};

use pst_expr::Span;

/// What is known of a slot.
#[derive(Clone, Copy, Debug, PartialEq, Eq)]
pub enum Known {
    /// It has this value.
    Value(i64),
    /// Its value is one of the span, and isn't read yet.
    Open(Span),
    /// It never has a value.
    Lacking,
}

/// A value that isn't read yet, where there are any.
pub(crate) fn open(span: Option<Span>) -> Known
    ensures { result ≡ known_span span }
{
    match span {
        None => Known::Lacking,
        Some(span) => Known::Open(span),
    }
}

/// The value of that number, or else what is known where it isn't read.
pub(crate) fn read_or(values: &[i64], number: u32, other: Option<Span>) -> Known
    ensures { result ≡ known_or values.now number (known_span other) }
{
    match values.get(number as usize) {
        Some(value) => Known::Value(*value),
        None => open(other),
    }
}
