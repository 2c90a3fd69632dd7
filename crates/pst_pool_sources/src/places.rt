//! The place of a reference among others that stand in order.
ghost use Rattle.std.specs.Prelude.{◌≡◌, ◌<◌, ◌≤◌, ℕ, length, slice_index_or, true, false, IfSome};
ghost use Rattle.pst_ties.specs.declared.tied.End.{End as the_end};
ghost use Rattle.pst_ties.specs.Tieds.{same_end};
ghost use Rattle.pst_pool_sources.specs.Places.{is_before, AreRising, IsPlace};

use pst_ties::End;

// Whether the first stands before the second, by action and reference.
fn is_before(first: End, second: End) -> bool
    ensures { result ≡ is_before first second }
{
    first.act < second.act || (first.act == second.act && first.reference < second.reference)
}

// Whether both are the same reference.
fn is_same(first: End, second: End) -> bool
    ensures { result ≡ same_end first second }
{
    first.act == second.act && first.reference == second.reference
}

// How many of the references stand before another.
fn count_before(ends: &[End], end: End) -> usize
    requires { AreRising ends.now }
    ensures within { result ≤ length ends.now }
    ensures before { (k : ℕ) (d : the_end) → k < result → is_before (slice_index_or ends.now k d) end ≡ true }
    ensures others { (k : ℕ) (d : the_end) → result ≤ k → k < length ends.now → is_before (slice_index_or ends.now k d) end ≡ false }
{
    ends.partition_point(|other| is_before(*other, end))
}

/// The place of a reference among others that stand in order.
pub(crate) fn place_of(ends: &[End], end: End) -> Option<usize>
    requires { AreRising ends.now }
    ensures within { IfSome result (λ place. place < length ends.now) }
    ensures is { IsPlace ends.now end result }
{
    let place = count_before(ends, end);
    if place >= ends.len() {
        return None;
    }
    if is_same(end, ends[place]) {
        return Some(place);
    }
    None
}
