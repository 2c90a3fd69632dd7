//! The types of fields.
ghost use Rattle.std.specs.Prelude.{◌≡◌, IfOk, is_some};
ghost use Rattle.std.specs.Option.{option_map};
ghost use Rattle.pst_ast.specs.SharedView.{view_domain, view_plain, view_type};
ghost use Rattle.pst_type_rules.specs.Domains.{ranges_behind};
ghost use Rattle.pst_type_rules.specs.Places as places;
ghost use Rattle.pst_evaluate.specs.Kept.{known_in};
ghost use Rattle.pst_enum_values.specs.Kept.{IsFound};
ghost use Rattle.pst_range_rules.specs.Facts.{constant_at};
ghost use Rattle.pst_range_rules.specs.Found.{type_found};
ghost use Rattle.pst_range_rules.specs.Spans.{spans_of};
ghost use Rattle.pst_range_rules.specs.Types as tree;

use crate::base::base_span;
use crate::empty::{is_empty_enum, is_empty_plain};
use crate::facts::RangeFacts;
use crate::reversed::reversed_in;
use crate::span::{RangeSpan, add_ranges};
use pst_ast::{DomainNode, Environment, Finding, PlainNode, TypeName, TypeNode};
use pst_base::{NoMemory, Place};
use pst_enum_values::EnumValues;
use pst_name_rules::earlier;

// The ranges of a domain.
fn ranges_in(
    facts: &RangeFacts,
    at: &Environment,
    domain: &Option<DomainNode>,
) -> Result<Vec<RangeSpan>, NoMemory>
    ensures { IfOk result (λ r. r.items ≡ spans_of (constant_at facts.now at.now) (ranges_behind (option_map view_domain domain.now))) }
{
    let mut found = Vec::new(facts.alloc);
    if let Some(domain) = domain {
        add_ranges(facts, at, &mut found, &domain.ranges)?;
    }
    Ok(found)
}

// Rule 10 at a reversed range, or at a type without values.
fn by_ranges(ranges: &[RangeSpan], place: Place, empty: bool) -> Option<Finding>
    ensures { result ≡ tree.type_by_ranges ranges.now place empty }
{
    let reversed = reversed_in(ranges);
    if empty {
        return earlier(reversed, Some(Finding { place, rule: 10 }));
    }
    reversed
}

// The first token of a plain type.
fn plain_place(plain: &PlainNode) -> Place
    ensures { result ≡ places.plain_place (view_plain plain.now) }
{
    match plain {
        PlainNode::Int { int, .. } => *int,
        PlainNode::Bit { bit, .. } => *bit,
        PlainNode::Bool(place) => *place,
    }
}

// Rule 10 at a plain type.
fn plain_type(
    facts: &RangeFacts,
    at: &Environment,
    plain: &PlainNode,
    domain: &Option<DomainNode>,
) -> Result<Option<Finding>, NoMemory>
    ensures { IfOk result (λ r. r ≡ tree.plain_type (constant_at facts.now at.now) (view_plain plain.now) (option_map view_domain domain.now)) }
{
    let base = base_span(facts, at, plain)?;
    let ranges = ranges_in(facts, at, domain)?;
    let empty = is_empty_plain(base, domain.is_some(), ranges.as_slice());
    Ok(by_ranges(ranges.as_slice(), plain_place(plain), empty))
}

// The values of the enum that a name stands for.
fn values_named<'a>(
    facts: &RangeFacts<'a>,
    at: &Environment,
    name: &TypeName,
) -> Option<&'a EnumValues>
    ensures { IsFound (known_in facts.now.enums.now.items) (tree.enum_named facts.now.index.now facts.now.enums.now.enums at.now.component name.now) (option_map (λ r. r.now) result) }
{
    let declaration = facts.index.type_named(at.component, name)?;
    facts.enums.values_at(declaration.name.place)
}

// Rule 10 at a type with a name.
fn named_type(
    facts: &RangeFacts,
    at: &Environment,
    name: &TypeName,
    domain: &Option<DomainNode>,
) -> Result<Option<Finding>, NoMemory>
    ensures { IfOk result (λ r. r ≡ tree.named_type (constant_at facts.now at.now) (known_in facts.now.enums.now.items) (tree.enum_named facts.now.index.now facts.now.enums.now.enums at.now.component name.now) name.now (option_map view_domain domain.now)) }
{
    let values = values_named(facts, at, name);
    let ranges = ranges_in(facts, at, domain)?;
    let empty = is_empty_enum(values, domain.is_some(), ranges.as_slice());
    Ok(by_ranges(ranges.as_slice(), name.first.place, empty))
}

/// Rule 10 at the type of a field: a range of its domain is reversed, or it has no value though all
/// its parts are known.
pub fn type_finding(
    facts: &RangeFacts,
    at: &Environment,
    field_type: &TypeNode,
) -> Result<Option<Finding>, NoMemory>
    ensures { IfOk result (λ r. r ≡ type_found facts.now.index.now facts.now.enums.now.enums facts.now.names.now (known_in facts.now.enums.now.items) at.now (view_type field_type.now)) }
{
    match field_type {
        TypeNode::Plain { plain, domain } => plain_type(facts, at, plain, domain),
        TypeNode::Named { name, domain } => named_type(facts, at, name, domain),
    }
}
