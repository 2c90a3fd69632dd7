//! The spans of ranges.
ghost use Rattle.std.specs.Prelude.{◌≡◌, ◌++◌, IfOk, OnOk, map};
ghost use Rattle.pst_ast.specs.ExpressionView.{view_expr, view_range, view_ranges};
ghost use Rattle.pst_elab_rules.specs.Spans as tree;
ghost use Rattle.pst_sources.specs.Shown.{sources_of};
ghost use Rattle.pst_spans.specs.Rows.{as_range};

use pst_ast::{ExprNode, NextRange, RangeNode, RangesNode};
use pst_base::NoMemory;
use pst_expr::Span;
use pst_sources::Known;

// The value of an end.
fn end_value(known: &Known<'_>, expr: &ExprNode) -> i64
    ensures { result ≡ tree.end_value (sources_of known.now) (view_expr expr.now) }
{
    match known.value_of(expr) {
        None => 0,
        Some(value) => value,
    }
}

// The span of a range.
fn range_span(known: &Known<'_>, range: &RangeNode) -> Span
    ensures { result ≡ tree.range_span (sources_of known.now) (view_range range.now) }
{
    match range {
        RangeNode::Single(expr) => {
            let value = end_value(known, expr);
            Span {
                low: value,
                high: value,
            }
        }
        RangeNode::Between { low, high, .. } => Span {
            low: end_value(known, low),
            high: end_value(known, high),
        },
    }
}

// Adds the spans of the ranges behind the first.
fn add_rest(known: &Known<'_>, found: &mut Vec<Span>, ranges: &[NextRange]) -> Result<(), NoMemory>
    ensures { OnOk result (found.new.items ≡ found.old.items ++ map (tree.range_span (sources_of known.now)) (map as_range ranges.now)) }
{
    for next in ranges {
        found.push(range_span(known, &next.range))?;
    }
    Ok(())
}

/// The spans of ranges, in the order of the text.
pub fn range_spans(known: &Known<'_>, ranges: &RangesNode) -> Result<Vec<Span>, NoMemory>
    ensures { IfOk result (λ spans. spans.items ≡ tree.range_spans (sources_of known.now) (view_ranges ranges.now)) }
{
    let mut found = Vec::new(known.alloc());
    found.push(range_span(known, &ranges.first))?;
    add_rest(known, &mut found, ranges.rest.as_slice())?;
    Ok(found)
}
