//! The values of types as spans.
ghost use Rattle.std.specs.Prelude.{◌≡◌, ◌∷◌, [], IfOk};
ghost use Rattle.std.specs.Option.{option_map};
ghost use Rattle.pst_ast.specs.SharedView.{view_domain, view_plain, view_type};
ghost use Rattle.pst_evaluate.specs.Kept.{known_in};
ghost use Rattle.pst_joined_spans.specs.Joined.{AreJoined};
ghost use Rattle.pst_range_rules.specs.Facts.{constant_at};
ghost use Rattle.pst_range_rules.specs.Types.{base_span as base_of};
ghost use Rattle.pst_field_domains.specs.Known as tree;

use crate::base::base_span;
use crate::ranges::spans_of_ranges;
use crate::row::SpanRow;
use crate::table::EnumSpans;
use pst_ast::{DomainNode, Environment, PlainNode, RangesNode, TypeName, TypeNode};
use pst_base::NoMemory;
use pst_expr::Span;
use pst_joined_spans::{common_spans, joined_spans};
use pst_range_rules::RangeFacts;

// The numbers of joined spans that are in one of the ranges.
fn cut(
    facts: &RangeFacts,
    at: &Environment,
    base: &[Span],
    ranges: &RangesNode,
) -> Result<Vec<Span>, NoMemory>
    requires { AreJoined base.now }
    ensures { IfOk result (λ spans. tree.AreWithin (constant_at facts.now at.now) base.now ranges.now spans.items) }
{
    let spans = spans_of_ranges(facts, at, ranges)?;
    let kept = joined_spans(facts.alloc, spans.as_slice())?;
    let common = common_spans(facts.alloc, base, kept.as_slice())?;
    let found = joined_spans(facts.alloc, common.as_slice())?;
    Ok(found)
}

// The numbers of joined spans that are kept.
fn kept(
    facts: &RangeFacts,
    at: &Environment,
    base: &[Span],
    domain: &Option<DomainNode>,
) -> Result<Vec<Span>, NoMemory>
    requires { AreJoined base.now }
    ensures { IfOk result (λ spans. tree.AreCut (constant_at facts.now at.now) base.now (option_map view_domain domain.now) spans.items) }
{
    match domain {
        None => {
            let all = joined_spans(facts.alloc, base)?;
            Ok(all)
        }
        Some(domain) => {
            let some = cut(facts, at, base, &domain.ranges)?;
            Ok(some)
        }
    }
}

// The numbers of a span that are kept. A span that is reversed is answered by `NoMemory`: no type
// has one.
#[tactic(auto, using(crate::proofs::Cuts::one_joined))]
fn kept_of(
    facts: &RangeFacts,
    at: &Environment,
    span: Span,
    domain: &Option<DomainNode>,
) -> Result<Vec<Span>, NoMemory>
    ensures { IfOk result (λ spans. tree.AreCut (constant_at facts.now at.now) (span ∷ []) (option_map view_domain domain.now) spans.items) }
{
    if span.high < span.low {
        return Err(NoMemory);
    }
    kept(facts, at, &[span], domain)
}

// The values of a plain type.
fn plain_spans(
    facts: &RangeFacts,
    at: &Environment,
    plain: &PlainNode,
    domain: &Option<DomainNode>,
) -> Result<Vec<Span>, NoMemory>
    ensures { IfOk result (λ spans. tree.ArePlain (constant_at facts.now at.now) (base_of (constant_at facts.now at.now) (view_plain plain.now)) (option_map view_domain domain.now) spans.items) }
{
    let base = base_span(facts, at, plain)?;
    match base {
        None => {
            let none = Vec::new(facts.alloc);
            Ok(none)
        }
        Some(span) => {
            let spans = kept_of(facts, at, span, domain)?;
            Ok(spans)
        }
    }
}

// The spans of the enum that a name stands for.
fn spans_named<'a>(
    facts: &RangeFacts,
    table: &'a EnumSpans<'_>,
    at: &Environment,
    name: &TypeName,
) -> Option<&'a SpanRow>
    ensures { tree.IsFound (known_in table.now.items) (tree.enum_of_name facts.now.index.now table.now.enums at.now name.now) (option_map (λ r. r.now) result) }
{
    let declaration = facts.index.type_named(at.component, name)?;
    table.spans_at(declaration.name.place)
}

// The values of a type with a name.
fn named_spans(
    facts: &RangeFacts,
    table: &EnumSpans<'_>,
    at: &Environment,
    name: &TypeName,
    domain: &Option<DomainNode>,
) -> Result<Vec<Span>, NoMemory>
    ensures { IfOk result (λ spans. tree.AreNamed (constant_at facts.now at.now) (known_in table.now.items) (tree.enum_of_name facts.now.index.now table.now.enums at.now name.now) (option_map view_domain domain.now) spans.items) }
{
    match spans_named(facts, table, at, name) {
        None => {
            let none = Vec::new(facts.alloc);
            Ok(none)
        }
        Some(row) => {
            let spans = kept(facts, at, row.as_slice(), domain)?;
            Ok(spans)
        }
    }
}

/// The values of a type as joined spans. It takes the time of a sort of its ranges, and a bisection
/// in the enum's values for each of them.
pub fn type_spans(
    facts: &RangeFacts,
    table: &EnumSpans<'_>,
    at: &Environment,
    field_type: &TypeNode,
) -> Result<Vec<Span>, NoMemory>
    ensures { IfOk result (λ spans. tree.AreTyped (constant_at facts.now at.now) (known_in table.now.items) facts.now.index.now table.now.enums at.now (view_type field_type.now) spans.items) }
{
    match field_type {
        TypeNode::Plain { plain, domain } => plain_spans(facts, at, plain, domain),
        TypeNode::Named { name, domain } => named_spans(facts, table, at, name, domain),
    }
}
