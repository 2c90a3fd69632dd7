// Spans cut to the values.
ghost use Rattle.std.specs.Prelude.{◌≡◌, ◌≤ℤ◌, ◌&&◌, IfSome, option_and_then};
ghost use Rattle.pst_domain.specs.Cut.{cut, cut_span, is_point, point};

use pst_expr::Span;

/// All values.
pub const WHOLE: Span = Span {
    low: i64::MIN,
    high: i64::MAX,
};

/// The values from `low` to `high`, `None` where there is none.
pub fn cut(low: i128, high: i128) -> Option<Span>
    ensures { result ≡ cut low high }
{
    let low = low.max(i128::from(i64::MIN));
    let high = high.min(i128::from(i64::MAX));
    if low <= high {
        Some(Span {
            low: low as i64,
            high: high as i64,
        })
    } else {
        None
    }
}

/// Whether each of two spans has one number alone.
pub fn are_points(left: Span, right: Span) -> bool
    ensures { result ≡ (is_point left && is_point right) }
{
    (left.low == left.high) & (right.low == right.high)
}

/// The span of a value, `None` where there is none.
pub fn span_of_value(value: Option<i64>) -> Option<Span>
    ensures { result ≡ option_and_then point value }
{
    match value {
        Some(number) => Some(Span {
            low: number,
            high: number,
        }),
        None => None,
    }
}

/// The same span, of a bound whose span isn't reversed.
pub fn uncut(bound: Option<Span>) -> Option<Span>
    requires { IfSome bound (λ s. s.low ≤ℤ s.high) }
    ensures { result ≡ cut_span bound }
{
    bound
}
