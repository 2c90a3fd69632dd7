//! The enums of the sources.
ghost use Rattle.std.specs.Prelude.{◌≡◌, ◌++◌, IfOk, OnOk, map};
ghost use Rattle.std.specs.List.{flat_map};
ghost use Rattle.pst_ast.specs.DeclarationView.{view_component_part, view_item, view_unit};
ghost use Rattle.pst_type_rules.specs.Enums.{enums, enums_in_item, enums_in_part};
ghost use Rattle.pst_site_lists.specs.Sited.{view_enum_site};

use crate::site::EnumSite;
use pst_ast::{ComponentPart, Item, Unit};
use pst_base::{NoMemory, Place};
use std::alloc::Global;

// Adds the enum that a part of a component is.
fn add_part<'a>(
    found: &mut Vec<EnumSite<'a>>,
    component: Place,
    part: &'a ComponentPart,
) -> Result<(), NoMemory>
    ensures { OnOk result (map view_enum_site found.new.items ≡ map view_enum_site found.old.items ++ enums_in_part component (view_component_part part.now)) }
{
    if let ComponentPart::Enum(node) = part {
        found.push(EnumSite {
            component: Some(component),
            node: &**node,
        })?;
    }
    Ok(())
}

// Adds the enums among the parts of a component.
fn add_parts<'a>(
    found: &mut Vec<EnumSite<'a>>,
    component: Place,
    parts: &'a [ComponentPart],
) -> Result<(), NoMemory>
    ensures { OnOk result (map view_enum_site found.new.items ≡ map view_enum_site found.old.items ++ flat_map (enums_in_part component) (map view_component_part parts.now)) }
{
    for part in parts {
        add_part(found, component, part)?;
    }
    Ok(())
}

// Adds the enums in a part of a file.
fn add_item<'a>(found: &mut Vec<EnumSite<'a>>, item: &'a Item) -> Result<(), NoMemory>
    ensures { OnOk result (map view_enum_site found.new.items ≡ map view_enum_site found.old.items ++ enums_in_item (view_item item.now)) }
{
    match item {
        Item::Component(component) => {
            add_parts(found, component.name.place, component.parts.as_slice())
        }
        Item::Enum(node) => {
            found.push(EnumSite {
                component: None,
                node: &**node,
            })?;
            Ok(())
        }
        _ => Ok(()),
    }
}

// Adds the enums in the parts of a file.
fn add_items<'a>(found: &mut Vec<EnumSite<'a>>, items: &'a [Item]) -> Result<(), NoMemory>
    ensures { OnOk result (map view_enum_site found.new.items ≡ map view_enum_site found.old.items ++ flat_map enums_in_item (map view_item items.now)) }
{
    for item in items {
        add_item(found, item)?;
    }
    Ok(())
}

/// The enums of the sources, in the order of their text.
pub fn list_enums(alloc: Global, units: &[Unit]) -> Result<Vec<EnumSite<'_>>, NoMemory>
    ensures { IfOk result (λ all. map view_enum_site all.items ≡ enums (map view_unit units.now)) }
{
    let mut found = Vec::new(alloc);
    for unit in units {
        add_items(&mut found, unit.items.as_slice())?;
    }
    Ok(found)
}
