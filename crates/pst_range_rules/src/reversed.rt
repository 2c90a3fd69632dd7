//! Reversed ranges.
ghost use Rattle.std.specs.Prelude.{◌≡◌};
ghost use Rattle.pst_name_rules.specs.Leasts.{least_at};
ghost use Rattle.pst_range_rules.specs.Spans as tree;

use crate::span::RangeSpan;
use pst_ast::Finding;
use pst_expr::Span;
use pst_name_rules::earlier;

// Whether a span is reversed.
fn is_reversed(span: Option<Span>) -> bool
    ensures { result ≡ tree.is_reversed span }
{
    match span {
        None => false,
        Some(span) => span.high < span.low,
    }
}

// Rule 10 at a reversed range.
fn reversed_finding(range: RangeSpan) -> Option<Finding>
    ensures { result ≡ tree.reversed_finding range }
{
    if is_reversed(range.span) {
        return Some(Finding {
            place: range.place,
            rule: 10,
        });
    }
    None
}

/// Rule 10 at the first of the reversed ranges.
pub fn reversed_in(ranges: &[RangeSpan]) -> Option<Finding>
    ensures { result ≡ tree.reversed_in ranges.now }
{
    let mut found = None;
    for range in ranges {
        found = earlier(found, reversed_finding(*range));
    }
    found
}
