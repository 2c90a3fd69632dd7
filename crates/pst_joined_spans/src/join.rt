//! Joining spans where they touch.
ghost use Rattle.std.specs.Prelude.{◌≡◌, ◌++◌, ◌∷◌, List, IfOk};
ghost use Rattle.std.specs.List.{filter};
ghost use Rattle.std.specs.List.Sorted.{IsPermutation};
ghost use Rattle.pst_expr.specs.declared.ranges.Span.{Span as ASpan};
ghost use Rattle.pst_joined_spans.specs.Joined.{AreJoined, HaveSame};
ghost use Rattle.pst_joined_spans.specs.Steps as steps;

use pst_base::NoMemory;
use pst_expr::Span;
use std::alloc::Global;

// The spans that aren't reversed.
fn upright(alloc: Global, spans: &[Span]) -> Result<Vec<Span>, NoMemory>
    ensures { IfOk result (λ found. found.items ≡ filter steps.is_upright spans.now) }
{
    let mut found = Vec::new(alloc);
    for span in spans {
        if span.low <= span.high {
            found.push(*span)?;
        }
    }
    Ok(found)
}

// Sorts spans by their lows.
fn sort_by_low(spans: &mut Vec<Span>)
    ensures same { IsPermutation spans.old.items spans.new.items }
    ensures ascending { steps.AreByLow spans.new.items }
{
    spans.sort_unstable_by_key(|span| span.low);
}

// Whether no number is missing between a span and one that begins in it or behind it.
fn touches(span: Span, next: Span) -> bool
    ensures { result ≡ steps.touches span next }
{
    next.low as i128 <= span.high as i128 + 1
}

// Joins the last span and the next, or keeps the last where they don't touch, and says which is last.
#[tactic(auto, using(crate::proofs::Joining::next_together, crate::proofs::Joining::next_apart))]
fn join_next(found: &mut Vec<Span>, last: Span, next: Span) -> Result<Span, NoMemory>
    ensures { IfOk result (λ s. (more : List ASpan) → found.new.items ++ steps.joined_from s more ≡ found.old.items ++ steps.joined_from last (next ∷ more)) }
{
    if touches(last, next) {
        return Ok(Span {
            low: last.low,
            high: last.high.max(next.high),
        });
    }
    found.push(last)?;
    Ok(next)
}

// Joins a span and those behind it, which begin at its low or above, by their lows.
fn joined_from(alloc: Global, first: Span, rest: &[Span]) -> Result<Vec<Span>, NoMemory>
    ensures { IfOk result (λ found. found.items ≡ steps.joined_from first rest.now) }
{
    let mut found = Vec::new(alloc);
    let mut last = first;
    for span in rest {
        last = join_next(&mut found, last, *span)?;
    }
    found.push(last)?;
    Ok(found)
}

// Joins spans that stand by their lows.
fn joined(alloc: Global, spans: &[Span]) -> Result<Vec<Span>, NoMemory>
    ensures { IfOk result (λ found. found.items ≡ steps.joined spans.now) }
{
    match spans.split_first() {
        None => Ok(Vec::new(alloc)),
        Some((first, rest)) => joined_from(alloc, *first, rest),
    }
}

/// The fewest spans with the same numbers, in ascending order. It takes the time of a sort.
///
/// A span that is reversed has no number.
pub fn joined_spans(alloc: Global, spans: &[Span]) -> Result<Vec<Span>, NoMemory>
    ensures joined { IfOk result (λ found. AreJoined found.items) }
    ensures same { IfOk result (λ found. HaveSame found.items spans.now) }
{
    let mut upright = upright(alloc, spans)?;
    sort_by_low(&mut upright);
    let found = joined(alloc, upright.as_slice())?;
    Ok(found)
}
