//! Types without values.
ghost use Rattle.std.specs.Prelude.{◌≡◌, ℤ, List, Option};
ghost use Rattle.std.specs.Option.{option_map};
ghost use Rattle.pst_base.specs.declared.position.Place.{Place};
ghost use Rattle.pst_expr.specs.declared.ranges.Span.{Span};
ghost use Rattle.pst_enum_values.specs.Gathered.{EnumPlaces, EnumRow};
ghost use Rattle.pst_enum_values.specs.Kept.{IsFound};
ghost use Rattle.pst_range_rules.specs.Spans.{have_common};
ghost use Rattle.pst_range_rules.specs.Types as tree;

use crate::meeting::have_common;
use crate::span::RangeSpan;
use pst_enum_values::EnumValues;
use pst_expr::Span;

// Whether a range is known and not reversed, and doesn't meet a span, of which the values from -2^63
// to 2^63 - 1 are given.
fn misses_span(base: Span, span: Option<Span>) -> bool
    ensures { (whole : Span) → base ≡ tree.clamped whole → result ≡ tree.misses (have_common whole) span }
{
    match span {
        None => false,
        Some(span) => span.low <= span.high && !have_common(base, span),
    }
}

// Whether each range is so.
fn all_miss_span(base: Span, ranges: &[RangeSpan]) -> bool
    ensures { (whole : Span) → base ≡ tree.clamped whole → result ≡ tree.keeps_nothing (have_common whole) ranges.now }
{
    for range in ranges {
        if !misses_span(base, range.span) {
            return false;
        }
    }
    true
}

/// Whether a plain type that is known has no value.
pub fn is_empty_plain(base: Option<Span>, has_domain: bool, ranges: &[RangeSpan]) -> bool
    ensures { (whole : Option Span) → base ≡ option_map tree.clamped whole → result ≡ tree.is_empty_plain whole has_domain ranges.now }
{
    match base {
        None => false,
        Some(base) => has_domain && all_miss_span(base, ranges),
    }
}

// Whether a range is known and not reversed, and an enum has no value in it.
fn misses_values(values: &EnumValues, span: Option<Span>) -> bool
    ensures { result ≡ tree.misses (tree.row_has values.now) span }
{
    match span {
        None => false,
        Some(span) => span.low <= span.high && !values.has_inside(span),
    }
}

// Whether each range is so.
fn all_miss_values(values: &EnumValues, ranges: &[RangeSpan]) -> bool
    ensures { result ≡ tree.keeps_nothing (tree.row_has values.now) ranges.now }
{
    for range in ranges {
        if !misses_values(values, range.span) {
            return false;
        }
    }
    true
}

// Whether an enum whose items are known has no value.
fn is_empty_row(values: &EnumValues, has_domain: bool, ranges: &[RangeSpan]) -> bool
    ensures { result ≡ tree.is_empty_row values.now has_domain ranges.now }
{
    if !values.are_known() {
        return false;
    }
    if has_domain {
        all_miss_values(values, ranges)
    } else {
        values.is_empty()
    }
}

/// Whether an enum whose items are known has no value.
pub fn is_empty_enum(values: Option<&EnumValues>, has_domain: bool, ranges: &[RangeSpan]) -> bool
    ensures { (known : Place → Option ℤ) (e : Option EnumPlaces) → IsFound known e (option_map (λ r. r.now) values.entry) → result ≡ tree.is_empty_enum known e has_domain ranges.now }
{
    match values {
        None => false,
        Some(values) => is_empty_row(values, has_domain, ranges),
    }
}
