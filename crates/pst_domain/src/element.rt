// The span of an element of an array.
ghost use Rattle.std.specs.Prelude.{◌≡◌, map};
ghost use Rattle.pst_domain.specs.Bounds.{AreUpright};
ghost use Rattle.pst_domain.specs.Cut.{cut_span};
ghost use Rattle.pst_domain.specs.Element.{joined, joined_all, element_span};

use crate::bounds::Bounds;
use crate::cut::uncut;
use pst_expr::Span;

// From the lesser low to the greater high of those that there are.
fn joined(all: Option<Span>, bound: Option<Span>) -> Option<Span>
    ensures { result ≡ joined all bound }
{
    match (all, bound) {
        (None, _) => bound,
        (Some(_), None) => all,
        (Some(a), Some(b)) => Some(Span {
            low: a.low.min(b.low),
            high: a.high.max(b.high),
        }),
    }
}

// From the least low to the greatest high of those that there are.
fn joined_all(bounds: &[Option<Span>]) -> Option<Span>
    requires { AreUpright bounds.now }
    ensures { result ≡ joined_all (map cut_span bounds.now) }
{
    let mut all = None;
    for bound in bounds {
        all = joined(all, uncut(*bound));
    }
    all
}

/// The span of an element of the array of `count` variables from `first` on, where `index` is the span of the index.
pub fn element(bounds: &Bounds, first: u32, count: u32, index: Span) -> Option<Span>
    requires { AreUpright bounds.now }
    ensures { result ≡ element_span bounds.now first count index }
{
    let low = index.low.max(0);
    let high = index.high.min(i64::from(count) - 1);
    if low > high {
        return None;
    }
    let bounds = bounds.spans();
    let start = (first as usize + low as usize).min(bounds.len());
    let end = (first as usize + high as usize + 1).min(bounds.len());
    joined_all(&bounds[start..end])
}
