//! What enums break: the values of their items are outside of their limits, or the same.
ghost use Rattle.std.specs.Prelude.{◌≡◌, ◌||◌, ℤ, IfOk, OnOk, map, false};
ghost use Rattle.std.specs.HashSet.{contains};
ghost use Rattle.std.specs.Option.{option_map_or};
ghost use Rattle.std.specs.Ordering.{int_eq};
ghost use Rattle.pst_ast.specs.DeclarationView.{view_enum, view_enum_item, view_next_enum_item, view_unit};
ghost use Rattle.pst_ast.specs.Declarations.{next_item};
ghost use Rattle.pst_evaluate.specs.Kept.{known_in};
ghost use Rattle.pst_evaluate.specs.Settled.{AreItemValues};
ghost use Rattle.pst_name_rules.specs.Earlier;
ghost use Rattle.pst_name_rules.specs.Leasts.{IsLeastOf};
ghost use Rattle.pst_enum_rules.specs.Breaches.{IsEnumBreach};
ghost use Rattle.pst_enum_rules.specs.Enums.{enum_least, is_outside, is_value, least_of_items, place_of_tree, tree_finding};

use crate::first_place::place_of_expr;
use pst_ast::{EnumItem, EnumNode, Finding, NextEnumItem};
use pst_base::{Names, NoMemory, Place};
use pst_evaluate::ItemValues;
use pst_name_rules::earlier;
use pst_sites::Sites;
use std::alloc::Global;
use std::collections::HashSet;

// Whether a value is one of those that have been seen. From then on it is.
fn is_seen(seen: &mut HashSet<i64>, value: Option<i64>) -> Result<bool, NoMemory>
    ensures before { IfOk result (λ yes. yes ≡ option_map_or (contains int_eq seen.old) value false) }
    ensures after { OnOk result ((v : ℤ) → contains int_eq seen.new v ≡ (is_value value v || contains int_eq seen.old v)) }
{
    match value {
        None => Ok(false),
        Some(value) => Ok(!seen.insert(value)?),
    }
}

// Whether a value is no value of an enum item.
fn is_no_item_value(value: Option<i64>) -> bool
    ensures { result ≡ is_outside value }
{
    match value {
        None => false,
        Some(value) => value < 0 || 2_147_483_647 < value,
    }
}

// The place of an item's expression, or of its name where it has none.
fn place_of_item(item: &EnumItem) -> Place
    ensures { result ≡ place_of_tree (view_enum_item item.now) }
{
    match &item.value {
        None => item.name.place,
        Some(value) => place_of_expr(&value.expr),
    }
}

// What an item breaks, given its value, and whether one before it has the same.
fn item_finding(item: &EnumItem, value: Option<i64>, repeated: bool) -> Option<Finding>
    ensures { result ≡ tree_finding value repeated (view_enum_item item.now) }
{
    if repeated || (item.value.is_none() && is_no_item_value(value)) {
        return Some(Finding {
            place: place_of_item(item),
            rule: 12,
        });
    }
    None
}

// The least of what was found before and what an item breaks.
fn see_item(
    values: &ItemValues,
    seen: &mut HashSet<i64>,
    least: Option<Finding>,
    item: &EnumItem,
) -> Result<Option<Finding>, NoMemory>
    ensures least { IfOk result (λ found. found ≡ Earlier.earlier least (tree_finding (known_in values.now item.now.name.place) (option_map_or (contains int_eq seen.old) (known_in values.now item.now.name.place) false) (view_enum_item item.now))) }
    ensures after { OnOk result ((v : ℤ) → contains int_eq seen.new v ≡ (is_value (known_in values.now item.now.name.place) v || contains int_eq seen.old v)) }
{
    let value = values.value_at(item.name.place);
    let repeated = is_seen(seen, value)?;
    Ok(earlier(least, item_finding(item, value, repeated)))
}

// The same of the items behind the first.
fn see_next_items(
    values: &ItemValues,
    seen: &mut HashSet<i64>,
    before: Option<Finding>,
    items: &[NextEnumItem],
) -> Result<Option<Finding>, NoMemory>
    ensures { IfOk result (λ found. found ≡ least_of_items (known_in values.now) (contains int_eq seen.old) before (map next_item (map view_next_enum_item items.now))) }
{
    let mut least = before;
    for next in items {
        least = see_item(values, seen, least, &next.item)?;
    }
    Ok(least)
}

// The least of what the items of an enum break.
fn enum_finding(
    alloc: Global,
    values: &ItemValues,
    node: &EnumNode,
) -> Result<Option<Finding>, NoMemory>
    ensures { IfOk result (λ found. found ≡ enum_least (known_in values.now) (view_enum node.now)) }
{
    let mut seen = HashSet::new(alloc);
    let least = see_item(values, &mut seen, None, &node.first)?;
    see_next_items(values, &mut seen, least, node.rest.as_slice())
}

/// The least breach of the rules of types by an enum: by an item without an expression whose value
/// is outside of its limits, or by the later of two items of one enum that have one value.
pub fn enums_finding(
    alloc: Global,
    sites: &Sites,
    names: &Names,
    values: &ItemValues,
) -> Result<Option<Finding>, NoMemory>
    requires values { AreItemValues (map view_unit sites.now) names.now (known_in values.now) }
    ensures { IfOk result (IsLeastOf (IsEnumBreach (map view_unit sites.now) names.now)) }
{
    pst_base::places_are_ordered();
    let mut least = None;
    for site in sites.enums() {
        least = earlier(least, enum_finding(alloc, values, site.node)?);
    }
    Ok(least)
}
