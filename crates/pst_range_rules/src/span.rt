//! Ranges, and the spans that they have.
ghost use Rattle.std.specs.Prelude.{◌≡◌, ◌++◌, ◌∷◌, [], IfOk, OnOk, map};
ghost use Rattle.pst_ast.specs.ExpressionView.{view_range, view_ranges};
ghost use Rattle.pst_type_rules.specs.Domains.{ranges_of};
ghost use Rattle.pst_type_rules.specs.Places.{range_place};
ghost use Rattle.pst_range_rules.specs.Facts.{constant_at};
ghost use Rattle.pst_range_rules.specs.Spans as tree;

use crate::facts::RangeFacts;
use crate::place::expr_place;
use pst_ast::{Environment, NextRange, RangeNode, RangesNode};
use pst_base::{NoMemory, Place};
use pst_expr::Span;

/// A range, where it begins, with its span where its ends are constants.
#[derive(Clone, Copy)]
pub struct RangeSpan {
    /// Its first token.
    pub place: Place,
    /// Its span.
    pub span: Option<Span>,
}

// The span between two ends.
fn between(low: Option<i64>, high: Option<i64>) -> Option<Span>
    ensures { result ≡ tree.between low high }
{
    match (low, high) {
        (Some(low), Some(high)) => Some(Span { low, high }),
        _ => None,
    }
}

// The first token of a range.
fn place_of_range(range: &RangeNode) -> Place
    ensures { result ≡ range_place (view_range range.now) }
{
    match range {
        RangeNode::Single(expr) => expr_place(expr),
        RangeNode::Between { low, .. } => expr_place(low),
    }
}

// The span of a range.
fn span_of_range(
    facts: &RangeFacts,
    at: &Environment,
    range: &RangeNode,
) -> Result<Option<Span>, NoMemory>
    ensures { IfOk result (λ r. r ≡ tree.span_of (constant_at facts.now at.now) (view_range range.now)) }
{
    match range {
        RangeNode::Single(expr) => {
            let value = facts.constant(at, expr)?;
            Ok(between(value, value))
        }
        RangeNode::Between { low, high, .. } => {
            let least = facts.constant(at, low)?;
            let greatest = facts.constant(at, high)?;
            Ok(between(least, greatest))
        }
    }
}

// Adds a range.
fn add_range(
    facts: &RangeFacts,
    at: &Environment,
    found: &mut Vec<RangeSpan>,
    range: &RangeNode,
) -> Result<(), NoMemory>
    ensures { OnOk result (found.new.items ≡ found.old.items ++ tree.range_span (constant_at facts.now at.now) (view_range range.now) ∷ []) }
{
    let span = span_of_range(facts, at, range)?;
    found.push(RangeSpan {
        place: place_of_range(range),
        span,
    })?;
    Ok(())
}

// Adds the ranges behind the first.
fn add_rest(
    facts: &RangeFacts,
    at: &Environment,
    found: &mut Vec<RangeSpan>,
    ranges: &[NextRange],
) -> Result<(), NoMemory>
    ensures { OnOk result (found.new.items ≡ found.old.items ++ map (tree.range_span (constant_at facts.now at.now)) (map tree.as_range ranges.now)) }
{
    for next in ranges {
        add_range(facts, at, found, &next.range)?;
    }
    Ok(())
}

/// Adds ranges to those before them.
pub fn add_ranges(
    facts: &RangeFacts,
    at: &Environment,
    found: &mut Vec<RangeSpan>,
    ranges: &RangesNode,
) -> Result<(), NoMemory>
    ensures { OnOk result (found.new.items ≡ found.old.items ++ map (tree.range_span (constant_at facts.now at.now)) (ranges_of (view_ranges ranges.now))) }
{
    add_range(facts, at, found, &ranges.first)?;
    add_rest(facts, at, found, ranges.rest.as_slice())
}
