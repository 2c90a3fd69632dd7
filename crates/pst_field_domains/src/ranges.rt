//! The spans of the ranges behind `in`.
ghost use Rattle.std.specs.Prelude.{◌≡◌, ◌++◌, IfOk, OnOk, map};
ghost use Rattle.std.specs.Option.{option_to_list};
ghost use Rattle.pst_ast.specs.ExpressionView.{view_range, view_ranges};
ghost use Rattle.pst_type_rules.specs.Domains.{ranges_of};
ghost use Rattle.pst_range_rules.specs.Facts.{constant_at};
ghost use Rattle.pst_range_rules.specs.Spans as tree;
ghost use Rattle.pst_field_domains.specs.Known.{known_spans};

use pst_ast::{Environment, NextRange, RangeNode, RangesNode};
use pst_base::NoMemory;
use pst_expr::Span;
use pst_range_rules::RangeFacts;

// The span between two ends.
fn between(low: Option<i64>, high: Option<i64>) -> Option<Span>
    ensures { result ≡ tree.between low high }
{
    match (low, high) {
        (Some(low), Some(high)) => Some(Span { low, high }),
        _ => None,
    }
}

// The span of a range.
fn span_of_range(
    facts: &RangeFacts,
    at: &Environment,
    range: &RangeNode,
) -> Result<Option<Span>, NoMemory>
    ensures { IfOk result (λ r. r ≡ tree.span_of (constant_at facts.now at.now) (view_range range.now)) }
{
    match range {
        RangeNode::Single(expr) => {
            let value = facts.constant(at, expr)?;
            Ok(between(value, value))
        }
        RangeNode::Between { low, high, .. } => {
            let least = facts.constant(at, low)?;
            let greatest = facts.constant(at, high)?;
            Ok(between(least, greatest))
        }
    }
}

// Adds the span of a range.
fn add_range(
    facts: &RangeFacts,
    at: &Environment,
    found: &mut Vec<Span>,
    range: &RangeNode,
) -> Result<(), NoMemory>
    ensures { OnOk result (found.new.items ≡ found.old.items ++ option_to_list (tree.span_of (constant_at facts.now at.now) (view_range range.now))) }
{
    if let Some(span) = span_of_range(facts, at, range)? {
        found.push(span)?;
    }
    Ok(())
}

// Adds the spans of the ranges behind the first.
fn add_rest(
    facts: &RangeFacts,
    at: &Environment,
    found: &mut Vec<Span>,
    ranges: &[NextRange],
) -> Result<(), NoMemory>
    ensures { OnOk result (found.new.items ≡ found.old.items ++ known_spans (constant_at facts.now at.now) (map tree.as_range ranges.now)) }
{
    for next in ranges {
        add_range(facts, at, found, &next.range)?;
    }
    Ok(())
}

// Adds the spans of ranges.
fn add_ranges(
    facts: &RangeFacts,
    at: &Environment,
    found: &mut Vec<Span>,
    ranges: &RangesNode,
) -> Result<(), NoMemory>
    ensures { OnOk result (found.new.items ≡ found.old.items ++ known_spans (constant_at facts.now at.now) (ranges_of (view_ranges ranges.now))) }
{
    add_range(facts, at, found, &ranges.first)?;
    add_rest(facts, at, found, ranges.rest.as_slice())
}

/// The spans of ranges, of each that has one.
pub fn spans_of_ranges(
    facts: &RangeFacts,
    at: &Environment,
    ranges: &RangesNode,
) -> Result<Vec<Span>, NoMemory>
    ensures { IfOk result (λ found. found.items ≡ known_spans (constant_at facts.now at.now) (ranges_of (view_ranges ranges.now))) }
{
    let mut found = Vec::new(facts.alloc);
    add_ranges(facts, at, &mut found, ranges)?;
    Ok(found)
}
