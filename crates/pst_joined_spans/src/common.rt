//! The numbers that are in both of two sets.
ghost use Rattle.std.specs.Prelude.{◌≡◌, ◌++◌, ℕ, ◌≤◌, ◌<◌, ◌≤ℤ◌, ◌<ℤ◌, IfOk, OnOk, length, slice_index_or};
ghost use Rattle.pst_expr.specs.declared.ranges.Span.{Span as ASpan};
ghost use Rattle.pst_joined_spans.specs.Joined.{AreJoined, HaveCommon};
ghost use Rattle.pst_joined_spans.specs.Steps as steps;

use pst_base::NoMemory;
use pst_expr::Span;
use std::alloc::Global;

// How many of ascending spans end below another.
fn count_below(spans: &[Span], range: Span) -> usize
    requires { AreJoined spans.now }
    ensures within { result ≤ length spans.now }
    ensures below { (k : ℕ) (d : ASpan) → k < result → (slice_index_or spans.now k d).high <ℤ range.low }
{
    spans.partition_point(|span| span.high < range.low)
}

// Adds what a span has of another.
fn add_cut(found: &mut Vec<Span>, range: Span, span: Span) -> Result<(), NoMemory>
    ensures { OnOk result (found.new.items ≡ found.old.items ++ steps.cut range span) }
{
    let low = range.low.max(span.low);
    let high = range.high.min(span.high);
    if low <= high {
        found.push(Span { low, high })?;
    }
    Ok(())
}

// Adds what a span has of ascending spans.
fn add_cuts(found: &mut Vec<Span>, range: Span, spans: &[Span]) -> Result<(), NoMemory>
    ensures { OnOk result (found.new.items ≡ found.old.items ++ steps.cuts range spans.now) }
{
    for span in spans {
        if range.high < span.low {
            return Ok(());
        }
        add_cut(found, range, *span)?;
    }
    Ok(())
}

// Adds what a span has of ascending spans. A bisection finds the first of them.
fn add_common(found: &mut Vec<Span>, spans: &[Span], range: Span) -> Result<(), NoMemory>
    requires { AreJoined spans.now }
    ensures { OnOk result (steps.HasMore found.old.items spans.now range found.new.items) }
{
    let below = count_below(spans, range);
    add_cuts(found, range, &spans[below..])?;
    Ok(())
}

/// The spans of the numbers that are in both of two sets, the first of which is joined.
///
/// Each span of the second takes the time of a bisection in the first, and of the spans that it adds.
pub fn common_spans(alloc: Global, spans: &[Span], others: &[Span]) -> Result<Vec<Span>, NoMemory>
    requires { AreJoined spans.now }
    ensures { IfOk result (λ found. HaveCommon spans.now others.now found.items) }
{
    let mut found = Vec::new(alloc);
    for range in others {
        add_common(&mut found, spans, *range)?;
    }
    Ok(found)
}
