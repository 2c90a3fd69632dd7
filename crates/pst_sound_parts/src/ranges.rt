// Ranges of a `match`, and the branches that a block waits for.
ghost use Rattle.std.specs.Prelude.{◌≡◌, ℕ, ◌≤◌, ◌<◌, IsTrue, ◌↔◌, All, AllPairs, map, IsBitSet};
ghost use Rattle.std.specs.List.{flat_map};
ghost use Rattle.pst_model.specs.ActivityTree.{spans_of};
ghost use Rattle.pst_model.specs.ModelView.{view_arm};
ghost use Rattle.pst_model.specs.SoundActivity.{AreApart, IsJoin};

use pst_expr::Span;
use pst_model::{Arm, Join};

// Whether no number is in both ranges.
fn is_apart(one: Span, other: Span) -> bool
    ensures { IsTrue result ↔ AreApart one other }
{
    if one.high < other.low {
        return true;
    }
    if other.high < one.low {
        return true;
    }
    if one.high < one.low {
        return true;
    }
    other.high < other.low
}

// Whether a range is apart from each of these.
fn is_apart_from(one: Span, spans: &[Span]) -> bool
    ensures { IsTrue result ↔ All (AreApart one) spans.now }
{
    spans.iter().all(|other| is_apart(one, *other))
}

// Whether each two of the ranges are apart.
fn are_apart(spans: &[Span]) -> bool
    ensures { IsTrue result ↔ AllPairs AreApart spans.now }
{
    for (index, one) in spans.iter().enumerate() {
        if !is_apart_from(*one, &spans[index + 1..]) {
            return false;
        }
    }
    true
}

// Whether a range is apart from each of the arms'.
fn is_apart_from_arms(one: Span, arms: &[Arm]) -> bool
    ensures { IsTrue result ↔ All (AreApart one) (flat_map spans_of (map view_arm arms.now)) }
{
    for arm in arms {
        if !is_apart_from(one, arm.spans.as_slice()) {
            return false;
        }
    }
    true
}

// Whether each of the ranges is apart from each of the arms'.
fn are_apart_from_arms(spans: &[Span], arms: &[Arm]) -> bool
    ensures { IsTrue result ↔ All (λ s. All (AreApart s) (flat_map spans_of (map view_arm arms.now))) spans.now }
{
    spans.iter().all(|one| is_apart_from_arms(*one, arms))
}

/// Whether each two of the arms' ranges are apart.
pub fn are_arms_apart(arms: &[Arm]) -> bool
    ensures { IsTrue result ↔ AllPairs AreApart (flat_map spans_of (map view_arm arms.now)) }
{
    for (index, arm) in arms.iter().enumerate() {
        let spans = arm.spans.as_slice();
        if !are_apart(spans) {
            return false;
        }
        if !are_apart_from_arms(spans, &arms[index + 1..]) {
            return false;
        }
    }
    true
}

// Whether each bit that is set is below n.
fn are_bits_below(bits: u64, n: usize) -> bool
    ensures { IsTrue result ↔ ((k : ℕ) → IsBitSet bits k → k < n) }
{
    for k in n..64 {
        if bits & (1 << k) != 0 {
            return false;
        }
    }
    true
}

/// Whether a block of n branches may wait for these.
pub fn is_join(join: Join, n: usize) -> bool
    ensures { IsTrue result ↔ IsJoin join n }
{
    match join {
        Join::Fixed { joined } => are_bits_below(joined, n),
        Join::Choose { count } => count as usize <= n,
    }
}
