// The bounds of one variable, cut to a span.
ghost use Rattle.std.specs.Prelude.{int_lt, ◌≡◌, ◌<◌, length, true, Ok, Some};
ghost use Rattle.std.specs.Int.{int_min, int_max};
ghost use Rattle.pst_domain.specs.Bounds.{AreUpright, IsInside, bound_of};
ghost use Rattle.pst_narrow.specs.Narrowing.{IsStep, LiesIn};

use crate::trail::Trail;
use pst_base::NoMemory;
use pst_domain::Bounds;
use pst_expr::Span;

// The numbers of both spans, reversed where there is none.
fn overlap(left: Span, right: Span) -> Span
    ensures { result ≡ record { low = int_max left.low right.low; high = int_min left.high right.high } }
{
    Span {
        low: left.low.max(right.low),
        high: left.high.min(right.high),
    }
}

// Whether a span is reversed.
fn is_reversed(span: Span) -> bool
    ensures { result ≡ int_lt span.high span.low }
{
    span.high < span.low
}

// Whether the numbers of one span are all in another.
fn is_within(inner: Span, outer: Span) -> bool
    ensures { result ≡ true → IsInside (Some inner) (Some outer) }
{
    outer.low <= inner.low && inner.high <= outer.high
}

/// Cuts the bounds of a variable to `wanted`, false where nothing is left.
pub fn meet(
    variable: u32,
    wanted: Span,
    bounds: &mut Bounds,
    trail: &mut Trail,
) -> Result<bool, NoMemory>
    requires upright { AreUpright bounds.old }
    requires variable { variable < length bounds.old }
    ensures step { IsStep (LiesIn variable wanted) bounds.old bounds.new trail.old trail.new result }
    ensures inside { result ≡ Ok true → IsInside (bound_of bounds.new variable) (Some wanted) }
{
    let Some(former) = bounds.get(variable) else {
        return Ok(false);
    };
    if is_within(former, wanted) {
        return Ok(true);
    }
    let cut = overlap(former, wanted);
    if is_reversed(cut) {
        return Ok(false);
    }
    trail.set(variable, Some(cut), bounds)?;
    Ok(true)
}
