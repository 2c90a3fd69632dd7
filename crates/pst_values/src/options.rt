// The values of a domain in the order of a seed, which begins at one of them and goes on in ascending order, behind the
// last with the first.
ghost use Rattle.std.specs.Prelude.{◌≡◌, ◌+◌, ◌-◌, ◌%◌, ◌<◌, ◌≤◌, ◌≤ℤ◌, ℕ, ℤ, Some, slice_get};
ghost use Rattle.pst_expr.specs.Spans.{IsInSpan, size_of, values};
ghost use Rattle.pst_values.specs.Options.{IsRun, HoldsRun};

use pst_expr::{Domain, Span, domains_list_values};

/// Places of the seed's order at which values ascend, by their indices in the domain.
#[derive(Clone, Copy, Debug, PartialEq, Eq)]
pub struct Run {
    /// The index of the first of them.
    pub index: u64,
    /// How many there are.
    pub count: u64,
}

/// The run that begins at a place of the order.
pub fn run_at(start: u64, size: u64, place: u64) -> Run
    requires start { start < size }
    requires place { place < size }
    ensures { IsRun start size place result }
{
    let end = size - start;
    if place < end {
        Run {
            index: start + place,
            count: end - place,
        }
    } else {
        Run {
            index: place - end,
            count: size - place,
        }
    }
}

/// The span from the least to the greatest of some values of a domain.
pub fn span_of_run(domain: &Domain, index: u64, count: u64) -> Span
    requires some { 0 < count }
    requires within { index + count ≤ size_of domain.now }
    ensures upright { result.low ≤ℤ result.high }
    ensures holds { HoldsRun domain.now index count result }
    ensures low { slice_get (values domain.now) index ≡ Some result.low }
    ensures high { slice_get (values domain.now) (index + (count - 1)) ≡ Some result.high }
{
    domains_list_values();
    let _spans = domain.spans();
    let low = domain.at(index);
    let high = domain.at(index + (count - 1));
    Span { low, high }
}
