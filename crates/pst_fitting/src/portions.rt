// How long the runs of values are that are tried: values outside the present bounds of a variable make one run each side.
ghost use Rattle.std.specs.Prelude.{◌≡◌, ◌<◌, ◌≤◌, ◌+◌, ◌*◌, true, false};

use pst_expr::{Domain, Span};
use pst_reasons::Narrowed;
use pst_values::Run;

/// The values of a domain within bounds, by their indices.
#[derive(Clone, Copy)]
pub struct Inner {
    /// The index of the first of them.
    pub first: u64,
    /// The index behind the last of them.
    pub end: u64,
}

// How many values of a span lie below a number.
fn count_in(span: Span, number: i64) -> u64 {
    if number <= span.low {
        return 0;
    }
    if number > span.high {
        return span.high.abs_diff(span.low).saturating_add(1);
    }
    number.abs_diff(span.low)
}

// How many values of a domain lie below a number.
fn count_below(domain: &Domain, number: i64) -> u64 {
    let mut count = 0u64;
    for span in domain.spans() {
        count = count.saturating_add(count_in(*span, number));
    }
    count
}

/// The values of a domain within the present bounds of a variable.
pub fn inner_of(narrowed: &Narrowed, variable: u32, domain: &Domain) -> Inner {
    let Some(span) = narrowed.bounds.get(variable) else {
        return Inner {
            first: 0,
            end: u64::MAX,
        };
    };
    let end = match span.high.checked_add(1) {
        Some(next) => count_below(domain, next),
        None => u64::MAX,
    };
    Inner {
        first: count_below(domain, span.low),
        end,
    }
}

/// How many values of a run are tried, and whether they lie outside the bounds.
#[derive(Clone, Copy)]
pub struct Portion {
    /// How many.
    pub count: u64,
    /// Whether they lie outside the bounds, on one side of them.
    pub outer: bool,
}

// How many of the values at the beginning of a run lie on one side of the bounds.
fn outer_count(inner: Inner, run: Run) -> u64
    ensures { result ≤ run.count }
{
    if run.index < inner.first {
        return run.count.min(inner.first - run.index);
    }
    if run.index >= inner.end {
        return run.count;
    }
    0
}

// How many values of a run within the bounds are tried, as many as `width` at most.
fn inner_count(inner: Inner, run: Run, width: u64) -> u64
    requires some { 0 < run.count }
    requires width { 0 < width }
    ensures some { 0 < result }
    ensures most { result ≤ run.count }
    ensures narrow { result ≤ width }
{
    let count = run.count.min(width);
    if run.index >= inner.end {
        return count;
    }
    count.min(inner.end - run.index)
}

/// How many values of a run are tried: all on one side of the bounds, where these count, else as many as `width` at most.
pub fn portion_at(bounded: bool, inner: Inner, run: Run, width: u64) -> Portion
    requires some { 0 < run.count }
    requires width { 0 < width }
    ensures some { 0 < result.count }
    ensures most { result.count ≤ run.count }
    ensures outer { result.outer ≡ true → bounded ≡ true }
    ensures inner { result.outer ≡ false → result.count ≤ width }
{
    if bounded {
        let count = outer_count(inner, run);
        if count > 0 {
            return Portion { count, outer: true };
        }
    }
    let count = inner_count(inner, run, width);
    Portion {
        count,
        outer: false,
    }
}

/// How many values are tried at most behind those of a portion that were refused.
pub fn next_width(portion: Portion, width: u64) -> u64
    requires some { 0 < portion.count }
    requires width { 0 < width }
    ensures some { 0 < result }
    ensures most { result ≤ width + 2 * portion.count }
{
    if portion.outer {
        return width;
    }
    portion.count.saturating_add(portion.count)
}
