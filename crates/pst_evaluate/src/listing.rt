//! The enum items of the sources.
ghost use Rattle.std.specs.Prelude.{◌≡◌, ◌++◌, ◌∷◌, [], Some, None, IfOk, OnOk, map};
ghost use Rattle.std.specs.List.{flat_map};
ghost use Rattle.pst_ast.specs.DeclarationView.{view_component_part, view_enum, view_enum_item, view_item, view_next_enum_item, view_unit};
ghost use Rattle.pst_ast.specs.Declarations.{next_item};
ghost use Rattle.pst_type_rules.specs.Enums;
ghost use Rattle.pst_evaluate.specs.Listed.{items_of, view_each};

use crate::item::ListedItem;
use pst_ast::{ComponentPart, EnumItem, EnumNode, Item, Name, NextEnumItem, Unit};
use pst_base::{NoMemory, Place};
use std::alloc::Global;

// Adds an item behind the one before it.
fn add_item<'a>(
    found: &mut Vec<ListedItem<'a>>,
    component: Option<Place>,
    before: Option<Name>,
    item: &'a EnumItem,
) -> Result<(), NoMemory>
    ensures { OnOk result (view_each found.new.items ≡ view_each found.old.items ++ Enums.items_behind component before (view_enum_item item.now ∷ [])) }
{
    let expr = match &item.value {
        Some(value) => Some(&value.expr),
        None => None,
    };
    found.push(ListedItem {
        component,
        name: item.name,
        before,
        expr,
    })?;
    Ok(())
}

// Adds the items behind one.
fn add_next_items<'a>(
    found: &mut Vec<ListedItem<'a>>,
    component: Option<Place>,
    first: Name,
    items: &'a [NextEnumItem],
) -> Result<(), NoMemory>
    ensures { OnOk result (view_each found.new.items ≡ view_each found.old.items ++ Enums.items_behind component (Some first) (map next_item (map view_next_enum_item items.now))) }
{
    let mut before = first;
    for next in items {
        add_item(found, component, Some(before), &next.item)?;
        before = next.item.name;
    }
    Ok(())
}

// Adds the items of an enum.
fn add_enum<'a>(
    found: &mut Vec<ListedItem<'a>>,
    component: Option<Place>,
    enum_: &'a EnumNode,
) -> Result<(), NoMemory>
    ensures { OnOk result (view_each found.new.items ≡ view_each found.old.items ++ items_of (Enums.enum_of component (view_enum enum_.now))) }
{
    add_item(found, component, None, &enum_.first)?;
    add_next_items(found, component, enum_.first.name, enum_.rest.as_slice())
}

// Adds the items in a part of a component.
fn add_part<'a>(
    found: &mut Vec<ListedItem<'a>>,
    component: Place,
    part: &'a ComponentPart,
) -> Result<(), NoMemory>
    ensures { OnOk result (view_each found.new.items ≡ view_each found.old.items ++ flat_map items_of (Enums.enums_in_part component (view_component_part part.now))) }
{
    match part {
        ComponentPart::Enum(enum_) => add_enum(found, Some(component), enum_),
        _ => Ok(()),
    }
}

// Adds the items in the parts of a component.
fn add_parts<'a>(
    found: &mut Vec<ListedItem<'a>>,
    component: Place,
    parts: &'a [ComponentPart],
) -> Result<(), NoMemory>
    ensures { OnOk result (view_each found.new.items ≡ view_each found.old.items ++ flat_map items_of (flat_map (Enums.enums_in_part component) (map view_component_part parts.now))) }
{
    for part in parts {
        add_part(found, component, part)?;
    }
    Ok(())
}

// Adds the items in a part of a file.
fn add_in_item<'a>(found: &mut Vec<ListedItem<'a>>, item: &'a Item) -> Result<(), NoMemory>
    ensures { OnOk result (view_each found.new.items ≡ view_each found.old.items ++ flat_map items_of (Enums.enums_in_item (view_item item.now))) }
{
    match item {
        Item::Component(component) => {
            add_parts(found, component.name.place, component.parts.as_slice())
        }
        Item::Enum(enum_) => add_enum(found, None, enum_),
        _ => Ok(()),
    }
}

// Adds the items in the parts of a file.
fn add_in_items<'a>(found: &mut Vec<ListedItem<'a>>, items: &'a [Item]) -> Result<(), NoMemory>
    ensures { OnOk result (view_each found.new.items ≡ view_each found.old.items ++ flat_map items_of (flat_map Enums.enums_in_item (map view_item items.now))) }
{
    for item in items {
        add_in_item(found, item)?;
    }
    Ok(())
}

/// The enum items of the sources, in the order of their text.
pub fn list_items(alloc: Global, units: &[Unit]) -> Result<Vec<ListedItem<'_>>, NoMemory>
    ensures { IfOk result (λ items. view_each items.items ≡ flat_map items_of (Enums.enums (map view_unit units.now))) }
{
    let mut found = Vec::new(alloc);
    for unit in units {
        add_in_items(&mut found, unit.items.as_slice())?;
    }
    Ok(found)
}
