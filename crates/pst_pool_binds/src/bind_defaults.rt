//! The default binds of the sources.
ghost use Rattle.std.specs.Prelude.{◌≡◌, ◌++◌, IfOk, OnOk, map};
ghost use Rattle.std.specs.List.{flat_map};
ghost use Rattle.pst_ast.specs.DeclarationView.{view_component_part, view_item, view_pool_bind, view_unit};
ghost use Rattle.pst_pool_binds.specs.FoundBinds.{default_in_bind, view_defaults};
ghost use Rattle.pst_pool_binds.specs.PoolBinds.{default_in_item, default_in_part};
ghost use Rattle.pst_pool_binds.specs.PoolBinds;

use crate::found_binds::FoundDefault;
use pst_ast::{ComponentPart, Item, PoolBindNode, TargetsNode, Unit};
use pst_base::{NoMemory, Place};
use std::alloc::Global;

// Adds a bind, where it is a default bind.
fn add_bind(
    found: &mut Vec<FoundDefault>,
    component: Place,
    bind: &PoolBindNode,
) -> Result<(), NoMemory>
    ensures { OnOk result (view_defaults found.new.items ≡ view_defaults found.old.items ++ default_in_bind component (view_pool_bind bind.now)) }
{
    match &bind.targets {
        TargetsNode::All(_) => {
            found.push(FoundDefault {
                component,
                pool: bind.pool,
            })?;
            Ok(())
        }
        _ => Ok(()),
    }
}

// Adds the default bind in a part of a component.
fn add_part(
    found: &mut Vec<FoundDefault>,
    component: Place,
    part: &ComponentPart,
) -> Result<(), NoMemory>
    ensures { OnOk result (view_defaults found.new.items ≡ view_defaults found.old.items ++ default_in_part component (view_component_part part.now)) }
{
    match part {
        ComponentPart::PoolBind(bind) => add_bind(found, component, bind),
        _ => Ok(()),
    }
}

// Adds the default binds in the parts of a component.
fn add_parts(
    found: &mut Vec<FoundDefault>,
    component: Place,
    parts: &[ComponentPart],
) -> Result<(), NoMemory>
    ensures { OnOk result (view_defaults found.new.items ≡ view_defaults found.old.items ++ flat_map (default_in_part component) (map view_component_part parts.now)) }
{
    for part in parts {
        add_part(found, component, part)?;
    }
    Ok(())
}

// Adds the default binds in a part of a file.
fn add_item(found: &mut Vec<FoundDefault>, item: &Item) -> Result<(), NoMemory>
    ensures { OnOk result (view_defaults found.new.items ≡ view_defaults found.old.items ++ default_in_item (view_item item.now)) }
{
    match item {
        Item::Component(component) => {
            add_parts(found, component.name.place, component.parts.as_slice())
        }
        _ => Ok(()),
    }
}

// Adds the default binds in the parts of a file.
fn add_items(found: &mut Vec<FoundDefault>, items: &[Item]) -> Result<(), NoMemory>
    ensures { OnOk result (view_defaults found.new.items ≡ view_defaults found.old.items ++ flat_map default_in_item (map view_item items.now)) }
{
    for item in items {
        add_item(found, item)?;
    }
    Ok(())
}

/// The default binds of the sources, in the order of their text.
pub fn default_binds(alloc: Global, units: &[Unit]) -> Result<Vec<FoundDefault>, NoMemory>
    ensures { IfOk result (λ binds. view_defaults binds.items ≡ PoolBinds.default_binds (map view_unit units.now)) }
{
    let mut found = Vec::new(alloc);
    for unit in units {
        add_items(&mut found, unit.items.as_slice())?;
    }
    Ok(found)
}
