//! The values of enum items.
ghost use Rattle.std.specs.Prelude.{◌≡◌, ◌++◌, ◌∷◌, [], pos, Some, IfOk, OnOk, map};
ghost use Rattle.std.specs.List.{flat_map};
ghost use Rattle.pst_ast.specs.DeclarationView.{view_enum_item, view_next_enum_item};
ghost use Rattle.pst_ast.specs.Declarations.{next_item};
ghost use Rattle.pst_site_lists.specs.Sited.{view_enum_site};
ghost use Rattle.pst_terms.specs.Sources.{all_item_values, item_values, next_value};
ghost use Rattle.pst_sources.specs.Listed.{item_expr, value_with, values_from};
ghost use Rattle.pst_sources.specs.Shown.{sources_of};

use crate::known::Known;
use pst_ast::{EnumItem, NextEnumItem};
use pst_base::{NoMemory, Place};
use pst_sites::EnumSite;

// One more than a value.
fn one_more(value: Option<i64>) -> Option<i64>
    ensures { result ≡ next_value value }
{
    match value {
        None => None,
        Some(value) => value.checked_add(1),
    }
}

// The value of an item, where that is the next value.
fn value_of_item(known: &Known<'_>, next: Option<i64>, item: &EnumItem) -> Option<i64>
    ensures { result ≡ value_with (sources_of known.now) next (item_expr (view_enum_item item.now)) }
{
    match &item.value {
        None => next,
        Some(value) => known.value_of(&value.expr),
    }
}

// Adds the value of an item, and says the next value.
fn add_item(
    found: &mut Vec<(Place, Option<i64>)>,
    known: &Known<'_>,
    next: Option<i64>,
    item: &EnumItem,
) -> Result<Option<i64>, NoMemory>
    ensures found { OnOk result (found.new.items ≡ found.old.items ++ (item.now.name.place, value_with (sources_of known.now) next (item_expr (view_enum_item item.now))) ∷ []) }
    ensures next { IfOk result (λ n. n ≡ next_value (value_with (sources_of known.now) next (item_expr (view_enum_item item.now)))) }
{
    let value = value_of_item(known, next, item);
    found.push((item.name.place, value))?;
    Ok(one_more(value))
}

// Adds the values of the items behind the first.
fn add_rest(
    found: &mut Vec<(Place, Option<i64>)>,
    known: &Known<'_>,
    first: Option<i64>,
    items: &[NextEnumItem],
) -> Result<(), NoMemory>
    ensures { OnOk result (found.new.items ≡ found.old.items ++ values_from (sources_of known.now) first (map next_item (map view_next_enum_item items.now))) }
{
    let mut value = first;
    for item in items {
        value = add_item(found, known, value, &item.item)?;
    }
    Ok(())
}

// Adds the values of the items of an enum.
fn add_enum(
    found: &mut Vec<(Place, Option<i64>)>,
    known: &Known<'_>,
    site: &EnumSite<'_>,
) -> Result<(), NoMemory>
    ensures { OnOk result (found.new.items ≡ found.old.items ++ item_values (sources_of known.now) (Some (pos 0)) (view_enum_site site.now).items) }
{
    let first = add_item(found, known, Some(0), &site.node.first)?;
    add_rest(found, known, first, site.node.rest.as_slice())
}

// Adds the values of the items of enums.
fn add_enums(
    found: &mut Vec<(Place, Option<i64>)>,
    known: &Known<'_>,
    enums: &[EnumSite<'_>],
) -> Result<(), NoMemory>
    ensures { OnOk result (found.new.items ≡ found.old.items ++ flat_map (λ e. item_values (sources_of known.now) (Some (pos 0)) (view_enum_site e).items) enums.now) }
{
    for site in enums {
        add_enum(found, known, site)?;
    }
    Ok(())
}

/// The enum items of the sources, with their values.
pub fn list_values(known: &Known<'_>) -> Result<Vec<(Place, Option<i64>)>, NoMemory>
    ensures { IfOk result (λ found. found.items ≡ all_item_values (sources_of known.now)) }
{
    let mut found = Vec::new(known.alloc());
    add_enums(&mut found, known, known.sites().enums())?;
    Ok(found)
}
