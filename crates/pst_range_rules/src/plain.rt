//! The widths of plain types.
ghost use Rattle.std.specs.Prelude.{◌≡◌, IfOk, pos};
ghost use Rattle.std.specs.Option.{option_and_then, option_map};
ghost use Rattle.pst_ast.specs.SharedView.{view_plain, view_width};
ghost use Rattle.pst_type_rules.specs.TypeRules.{lowest_in};
ghost use Rattle.pst_evaluate.specs.Kept.{known_in};
ghost use Rattle.pst_range_rules.specs.Facts.{constant_at};
ghost use Rattle.pst_range_rules.specs.Found.{plain_found};
ghost use Rattle.pst_range_rules.specs.Widths as tree;

use crate::facts::RangeFacts;
use pst_ast::{Environment, Finding, PlainNode, WidthNode};
use pst_base::{NoMemory, Place};

// The second part of a width.
fn lowest_value(
    facts: &RangeFacts,
    at: &Environment,
    width: &WidthNode,
) -> Result<Option<i64>, NoMemory>
    ensures { IfOk result (λ r. r ≡ option_and_then (constant_at facts.now at.now) (lowest_in (view_width width.now))) }
{
    match &width.low {
        None => Ok(None),
        Some(low) => facts.constant(at, &low.expr),
    }
}

// One more than a number.
fn one_more(number: Option<i64>) -> Option<i128>
    ensures { result ≡ option_map tree.one_more number }
{
    match number {
        None => None,
        Some(number) => Some(i128::from(number) + 1),
    }
}

/// The width.
pub fn width_value(
    facts: &RangeFacts,
    at: &Environment,
    width: &WidthNode,
) -> Result<Option<i128>, NoMemory>
    ensures { IfOk result (λ r. r ≡ tree.width_by (constant_at facts.now at.now) (view_width width.now)) }
{
    let highest = facts.constant(at, &width.expr)?;
    let Some(low) = &width.low else {
        return Ok(highest.map(i128::from));
    };
    match facts.constant(at, &low.expr)? {
        Some(0) => Ok(one_more(highest)),
        _ => Ok(None),
    }
}

// Whether a width is outside its limits.
fn is_outside(least: i128, width: Option<i128>) -> bool
    ensures { result ≡ tree.is_outside least width }
{
    match width {
        None => false,
        Some(width) => width < least || 63 < width,
    }
}

// Whether a second part isn't 0.
fn is_not_zero(lowest: Option<i64>) -> bool
    ensures { result ≡ tree.is_not_zero lowest }
{
    match lowest {
        None => false,
        Some(lowest) => lowest != 0,
    }
}

// Whether a width is outside its limits, or its second part isn't 0.
fn is_wrong(
    facts: &RangeFacts,
    at: &Environment,
    least: i128,
    width: &WidthNode,
) -> Result<bool, NoMemory>
    ensures { IfOk result (λ r. r ≡ tree.is_wrong (constant_at facts.now at.now) least (view_width width.now)) }
{
    let number = width_value(facts, at, width)?;
    let lowest = lowest_value(facts, at, width)?;
    Ok(is_outside(least, number) || is_not_zero(lowest))
}

// Rule 9 at a plain type, by its width.
fn width_finding(
    facts: &RangeFacts,
    at: &Environment,
    least: i128,
    place: Place,
    width: &Option<WidthNode>,
) -> Result<Option<Finding>, NoMemory>
    ensures { IfOk result (λ r. r ≡ tree.width_finding (constant_at facts.now at.now) least place (option_map view_width width.now)) }
{
    let Some(width) = width else {
        return Ok(None);
    };
    if is_wrong(facts, at, least, width)? {
        return Ok(Some(Finding { place, rule: 9 }));
    }
    Ok(None)
}

/// Rule 9 at a plain type: a width is outside its limits, or its second part isn't 0.
pub fn plain_finding(
    facts: &RangeFacts,
    at: &Environment,
    plain: &PlainNode,
) -> Result<Option<Finding>, NoMemory>
    ensures { IfOk result (λ r. r ≡ plain_found facts.now.index.now facts.now.names.now (known_in facts.now.enums.now.items) at.now (view_plain plain.now)) }
{
    match plain {
        PlainNode::Int { int, width } => width_finding(facts, at, 2, *int, width),
        PlainNode::Bit { bit, width } => width_finding(facts, at, 1, *bit, width),
        PlainNode::Bool(_) => Ok(None),
    }
}
