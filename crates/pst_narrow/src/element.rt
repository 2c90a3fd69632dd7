// Elements of arrays.
ghost use Rattle.std.specs.Prelude.{◌≡◌, ℕ, ◌<◌, ◌≤◌, length, false, IfSome};
ghost use Rattle.pst_expr.specs.Tree.{view};
ghost use Rattle.pst_domain.specs.Bounds.{AreUpright, HasVariablesBelow, bound_of};
ghost use Rattle.pst_narrow.specs.Narrowing.{IsStep};
ghost use Rattle.pst_narrow.specs.Elements.{HasElementsBelow, Misses, KeepsPlaces, GivesIndex, OneLiesIn};

use crate::meet::meet;
use crate::trail::Trail;
use pst_base::NoMemory;
use pst_domain::{Bounds, span_of};
use pst_expr::{Expr, Span};

// A span without a number.
const NOTHING: Span = Span { low: 1, high: 0 };

// Whether a variable may have a value in a span.
fn meets(bound: Option<Span>, wanted: Span) -> bool
    ensures { result ≡ false → Misses bound wanted }
{
    match bound {
        Some(span) => span.low <= wanted.high && wanted.low <= span.high,
        None => false,
    }
}

// The first variable of some that may have a value in a span, or their end.
fn first_place(spans: &[Option<Span>], from: usize, to: usize, wanted: Span) -> usize
    requires order { from ≤ to }
    requires within { to ≤ length spans.now }
    ensures range { (from ≤ result) × (result ≤ to) }
    ensures missed { (i : ℕ) → from ≤ i → i < result → Misses (bound_of spans.now i) wanted }
{
    for at in from..to {
        if meets(spans[at], wanted) {
            return at;
        }
    }
    to
}

// Behind the last variable of some that may have a value in a span, or their beginning.
fn end_of_places(spans: &[Option<Span>], from: usize, to: usize, wanted: Span) -> usize
    requires order { from ≤ to }
    requires within { to ≤ length spans.now }
    ensures range { (from ≤ result) × (result ≤ to) }
    ensures missed { (i : ℕ) → result ≤ i → i < to → Misses (bound_of spans.now i) wanted }
{
    let mut end = to;
    while end > from {
        if meets(spans[end - 1], wanted) {
            return end;
        }
        end -= 1;
    }
    end
}

// The indices at which an element of an array may lie in a span.
fn places_of(first: u32, count: u32, index: Span, wanted: Span, bounds: &Bounds) -> Span
    requires { HasElementsBelow (length bounds.now) first count }
    ensures { KeepsPlaces first count wanted index bounds.now result }
{
    let low = index.low.max(0);
    let high = index.high.min(i64::from(count) - 1);
    if low > high {
        return NOTHING;
    }
    let spans = bounds.spans();
    let start = first as usize;
    let to = start + high as usize + 1;
    let from = first_place(spans, start + low as usize, to, wanted);
    let end = end_of_places(spans, from, to, wanted);
    Span {
        low: (from - start) as i64,
        high: (end - start) as i64 - 1,
    }
}

/// The span of an index under which an element can lie in `wanted`, `None` where the index has no value.
pub fn index_span(
    first: u32,
    count: u32,
    index: &Expr,
    wanted: Span,
    bounds: &Bounds,
) -> Option<Span>
    requires upright { AreUpright bounds.now }
    requires elements { HasElementsBelow (length bounds.now) first count }
    requires index { HasVariablesBelow (length bounds.now) (view index.now) }
    ensures { IfSome result (λ places. GivesIndex first count (view index.now) wanted places bounds.now) }
{
    let Some(span) = span_of(index, bounds) else {
        return None;
    };
    Some(places_of(first, count, span, wanted, bounds))
}

/// Cuts the bounds of an array's element, where a span has one index alone, to those under which it can lie in
/// `wanted`, false where it can't.
pub fn meet_element(
    first: u32,
    count: u32,
    places: Span,
    wanted: Span,
    bounds: &mut Bounds,
    trail: &mut Trail,
) -> Result<bool, NoMemory>
    requires upright { AreUpright bounds.old }
    requires elements { HasElementsBelow (length bounds.old) first count }
    ensures { IsStep (OneLiesIn first count places wanted) bounds.old bounds.new trail.old trail.new result }
{
    if places.low < places.high || places.low < 0 || places.low >= i64::from(count) {
        return Ok(true);
    }
    match first.checked_add(places.low as u32) {
        Some(variable) => meet(variable, wanted, bounds, trail),
        None => Ok(true),
    }
}
