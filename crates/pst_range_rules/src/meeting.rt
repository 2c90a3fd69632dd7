//! Ranges that meet earlier ones.
ghost use Rattle.std.specs.Prelude.{◌≡◌, ◌≤◌, length, IsTrue, IfOk, IfSome, None, Some, All};
ghost use Rattle.pst_base.specs.Places.{IsBefore};
ghost use Rattle.std.specs.List.Sorted.{IsPermutation};
ghost use Rattle.pst_range_rules.specs.Meetings as tree;
ghost use Rattle.pst_range_rules.specs.Spans.{have_common, meet};

use crate::span::RangeSpan;
use pst_ast::Finding;
use pst_base::{NoMemory, Place};
use pst_expr::Span;
use pst_name_rules::earlier;
use std::alloc::Global;

/// Whether two spans have a number in common.
pub fn have_common(a: Span, b: Span) -> bool
    ensures { result ≡ have_common a b }
{
    a.low.max(b.low) <= a.high.min(b.high)
}

// Whether two ranges have a number in common.
fn meet(a: Option<Span>, b: Option<Span>) -> bool
    ensures { result ≡ meet a b }
{
    match (a, b) {
        (Some(a), Some(b)) => have_common(a, b),
        _ => false,
    }
}

// Whether a range meets one of a list.
fn meets_any(front: &[RangeSpan], range: RangeSpan) -> bool
    ensures { result ≡ tree.meets_any front.now range }
{
    front.iter().any(|r| meet(r.span, range.span))
}

// A range, where it meets one before it.
fn meeting_finding(front: &[RangeSpan], range: RangeSpan) -> Option<Finding>
    ensures { result ≡ tree.meeting_finding (front.now, range) }
{
    if meets_any(front, range) {
        return Some(Finding {
            place: range.place,
            rule: 13,
        });
    }
    None
}

// The first range that meets an earlier one, by looking at all pairs.
fn meeting_of_pairs(ranges: &[RangeSpan]) -> Option<Finding>
    ensures { result ≡ tree.meeting_in ranges.now }
{
    let mut found = None;
    for at in 0..ranges.len() {
        found = earlier(found, meeting_finding(&ranges[..at], ranges[at]));
    }
    found
}

// The spans that aren't reversed.
fn upright_spans(alloc: Global, ranges: &[RangeSpan]) -> Result<Vec<Span>, NoMemory>
    ensures { IfOk result (λ spans. spans.items ≡ tree.upright_in ranges.now) }
{
    let mut spans = Vec::new(alloc);
    for range in ranges {
        if let Some(span) = range.span {
            if span.low <= span.high {
                spans.push(span)?;
            }
        }
    }
    Ok(spans)
}

// Whether each span is above the one before it, and none is reversed.
fn are_ascending(spans: &[Span]) -> bool
    ensures { result ≡ tree.is_ascending None spans.now }
{
    let mut before = None;
    for span in spans {
        let above = match before {
            None => true,
            Some(high) => high < span.low,
        };
        if !above || span.high < span.low {
            return false;
        }
        before = Some(span.high);
    }
    true
}

// Sorts spans by their lows.
fn sort_by_low(spans: &mut Vec<Span>)
    ensures { IsPermutation spans.old.items spans.new.items }
{
    spans.sort_unstable_by_key(|s| s.low);
}

// Whether no two ranges meet. Sorted by their lows, ranges meet where neighbours do.
fn are_apart(alloc: Global, ranges: &[RangeSpan]) -> Result<bool, NoMemory>
    ensures { IfOk result (λ apart. IsTrue apart → tree.AreApart (tree.upright_in ranges.now)) }
{
    let mut spans = upright_spans(alloc, ranges)?;
    sort_by_low(&mut spans);
    Ok(are_ascending(spans.as_slice()))
}

// How many ranges at the front don't meet, by bisection.
fn apart_in_front(alloc: Global, ranges: &[RangeSpan]) -> Result<usize, NoMemory>
    ensures { IfOk result (λ count. count ≤ length ranges.now) }
{
    let mut apart = 0;
    let mut meeting = ranges.len();
    for _step in 0..64 {
        if meeting - apart <= 1 {
            break;
        }
        let middle = apart + (meeting - apart) / 2;
        if are_apart(alloc, &ranges[..middle])? {
            apart = middle;
        } else {
            meeting = middle;
        }
    }
    Ok(apart)
}

// Whether all ranges stand at later places.
fn are_behind(place: Place, ranges: &[RangeSpan]) -> bool
    ensures { IsTrue result → All (λ r. IsBefore place r.place) ranges.now }
{
    for range in ranges {
        if !place.is_before(range.place) {
            return false;
        }
    }
    true
}

// Rule 13 at a range before which none meets another, where it meets one of those, and the ranges
// behind it stand at later places; none where it isn't so.
fn meeting_at(alloc: Global, ranges: &[RangeSpan], at: usize) -> Result<Option<Finding>, NoMemory>
    ensures { IfOk result (λ r. IfSome r (λ f. tree.meeting_in ranges.now ≡ Some f)) }
{
    if at >= ranges.len() {
        return Ok(None);
    }
    let range = ranges[at];
    if !are_behind(range.place, &ranges[at + 1..]) {
        return Ok(None);
    }
    if !are_apart(alloc, &ranges[..at])? {
        return Ok(None);
    }
    Ok(meeting_finding(&ranges[..at], range))
}

/// Rule 13 at the first range that meets an earlier one.
///
/// Where no two meet this takes the time of a sort; else that of a sort for each binary digit of
/// their number. Where their places don't rise, as they do in a parsed source, all pairs are looked
/// at.
pub fn meeting_in(alloc: Global, ranges: &[RangeSpan]) -> Result<Option<Finding>, NoMemory>
    ensures { IfOk result (λ r. r ≡ tree.meeting_in ranges.now) }
{
    if are_apart(alloc, ranges)? {
        return Ok(None);
    }
    let at = apart_in_front(alloc, ranges)?;
    match meeting_at(alloc, ranges, at)? {
        Some(found) => Ok(Some(found)),
        None => Ok(meeting_of_pairs(ranges)),
    }
}
