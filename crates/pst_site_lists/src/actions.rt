//! The actions of the sources.
ghost use Rattle.std.specs.Prelude.{◌≡◌, ◌++◌, IfOk, OnOk, map};
ghost use Rattle.std.specs.List.{flat_map};
ghost use Rattle.pst_ast.specs.DeclarationView.{view_action, view_component_part, view_item, view_unit};
ghost use Rattle.pst_type_rules.specs.Sites.{action_of, actions, actions_in_item, actions_in_part};

use pst_ast::{ActionNode, ComponentPart, Item, Unit};
use pst_base::NoMemory;
use std::alloc::Global;

// Adds the action that a part of a component is.
fn add_part<'a>(found: &mut Vec<&'a ActionNode>, part: &'a ComponentPart) -> Result<(), NoMemory>
    ensures { OnOk result (map (λ a. action_of (view_action a.now)) found.new.items ≡ map (λ a. action_of (view_action a.now)) found.old.items ++ actions_in_part (view_component_part part.now)) }
{
    if let ComponentPart::Action(action) = part {
        found.push(&**action)?;
    }
    Ok(())
}

// Adds the actions among the parts of a component.
fn add_parts<'a>(
    found: &mut Vec<&'a ActionNode>,
    parts: &'a [ComponentPart],
) -> Result<(), NoMemory>
    ensures { OnOk result (map (λ a. action_of (view_action a.now)) found.new.items ≡ map (λ a. action_of (view_action a.now)) found.old.items ++ flat_map actions_in_part (map view_component_part parts.now)) }
{
    for part in parts {
        add_part(found, part)?;
    }
    Ok(())
}

// Adds the actions in a part of a file.
fn add_item<'a>(found: &mut Vec<&'a ActionNode>, item: &'a Item) -> Result<(), NoMemory>
    ensures { OnOk result (map (λ a. action_of (view_action a.now)) found.new.items ≡ map (λ a. action_of (view_action a.now)) found.old.items ++ actions_in_item (view_item item.now)) }
{
    match item {
        Item::Component(component) => add_parts(found, component.parts.as_slice()),
        _ => Ok(()),
    }
}

// Adds the actions in the parts of a file.
fn add_items<'a>(found: &mut Vec<&'a ActionNode>, items: &'a [Item]) -> Result<(), NoMemory>
    ensures { OnOk result (map (λ a. action_of (view_action a.now)) found.new.items ≡ map (λ a. action_of (view_action a.now)) found.old.items ++ flat_map actions_in_item (map view_item items.now)) }
{
    for item in items {
        add_item(found, item)?;
    }
    Ok(())
}

/// The actions of the sources, in the order of their text.
pub fn list_actions(alloc: Global, units: &[Unit]) -> Result<Vec<&ActionNode>, NoMemory>
    ensures { IfOk result (λ all. map (λ a. action_of (view_action a.now)) all.items ≡ actions (map view_unit units.now)) }
{
    let mut found = Vec::new(alloc);
    for unit in units {
        add_items(&mut found, unit.items.as_slice())?;
    }
    Ok(found)
}
