//! The values of enum items as spans.
ghost use Rattle.std.specs.Prelude.{◌≡◌, ◌++◌, IfOk, OnOk, map};
ghost use Rattle.std.specs.Option.{option_to_list, option_map};
ghost use Rattle.pst_ast.specs.DeclarationView.{view_enum, view_next_enum_item};
ghost use Rattle.pst_ast.specs.Declarations.{next_item};
ghost use Rattle.pst_evaluate.specs.Kept.{known_in};
ghost use Rattle.pst_enum_values.specs.Gathered.{place_of_item, places_in};
ghost use Rattle.pst_field_domains.specs.Known.{point, points};

use pst_ast::{EnumNode, NextEnumItem};
use pst_base::{NoMemory, Place};
use pst_evaluate::ItemValues;
use pst_expr::Span;
use std::alloc::Global;

// Adds the value of an item, where it has one.
fn add_point(values: &ItemValues, found: &mut Vec<Span>, place: Place) -> Result<(), NoMemory>
    ensures { OnOk result (found.new.items ≡ found.old.items ++ option_to_list (option_map point (known_in values.now place))) }
{
    if let Some(value) = values.value_at(place) {
        found.push(Span {
            low: value,
            high: value,
        })?;
    }
    Ok(())
}

// Adds the values of the items behind the first.
fn add_rest(
    values: &ItemValues,
    found: &mut Vec<Span>,
    items: &[NextEnumItem],
) -> Result<(), NoMemory>
    ensures { OnOk result (found.new.items ≡ found.old.items ++ points (known_in values.now) (map place_of_item (map next_item (map view_next_enum_item items.now)))) }
{
    for next in items {
        add_point(values, found, next.item.name.place)?;
    }
    Ok(())
}

/// The values of the items of an enum, each as a span.
pub fn points_of(alloc: Global, values: &ItemValues, node: &EnumNode) -> Result<Vec<Span>, NoMemory>
    ensures { IfOk result (λ found. found.items ≡ points (known_in values.now) (places_in (view_enum node.now))) }
{
    let mut found = Vec::new(alloc);
    add_point(values, &mut found, node.first.name.place)?;
    add_rest(values, &mut found, node.rest.as_slice())?;
    Ok(found)
}
