//! The functions of the sources.
ghost use Rattle.std.specs.Prelude.{◌≡◌, ◌++◌, IfOk, OnOk, map};
ghost use Rattle.std.specs.List.{flat_map};
ghost use Rattle.pst_ast.specs.DeclarationView.{view_component_part, view_function, view_item, view_unit};
ghost use Rattle.pst_type_rules.specs.Sites.{function_of, functions, functions_in_item, functions_in_part};

use pst_ast::{ComponentPart, FunctionNode, Item, Unit};
use pst_base::NoMemory;
use std::alloc::Global;

// Adds the function that a part of a component is.
fn add_part<'a>(found: &mut Vec<&'a FunctionNode>, part: &'a ComponentPart) -> Result<(), NoMemory>
    ensures { OnOk result (map (λ f. function_of (view_function f.now)) found.new.items ≡ map (λ f. function_of (view_function f.now)) found.old.items ++ functions_in_part (view_component_part part.now)) }
{
    if let ComponentPart::Function(function) = part {
        found.push(&**function)?;
    }
    Ok(())
}

// Adds the functions among the parts of a component.
fn add_parts<'a>(
    found: &mut Vec<&'a FunctionNode>,
    parts: &'a [ComponentPart],
) -> Result<(), NoMemory>
    ensures { OnOk result (map (λ f. function_of (view_function f.now)) found.new.items ≡ map (λ f. function_of (view_function f.now)) found.old.items ++ flat_map functions_in_part (map view_component_part parts.now)) }
{
    for part in parts {
        add_part(found, part)?;
    }
    Ok(())
}

// Adds the functions in a part of a file.
fn add_item<'a>(found: &mut Vec<&'a FunctionNode>, item: &'a Item) -> Result<(), NoMemory>
    ensures { OnOk result (map (λ f. function_of (view_function f.now)) found.new.items ≡ map (λ f. function_of (view_function f.now)) found.old.items ++ functions_in_item (view_item item.now)) }
{
    match item {
        Item::Component(component) => add_parts(found, component.parts.as_slice()),
        Item::Function(function) => {
            found.push(&**function)?;
            Ok(())
        }
        _ => Ok(()),
    }
}

// Adds the functions in the parts of a file.
fn add_items<'a>(found: &mut Vec<&'a FunctionNode>, items: &'a [Item]) -> Result<(), NoMemory>
    ensures { OnOk result (map (λ f. function_of (view_function f.now)) found.new.items ≡ map (λ f. function_of (view_function f.now)) found.old.items ++ flat_map functions_in_item (map view_item items.now)) }
{
    for item in items {
        add_item(found, item)?;
    }
    Ok(())
}

/// The functions of the sources, in the order of their text.
pub fn list_functions(alloc: Global, units: &[Unit]) -> Result<Vec<&FunctionNode>, NoMemory>
    ensures { IfOk result (λ all. map (λ f. function_of (view_function f.now)) all.items ≡ functions (map view_unit units.now)) }
{
    let mut found = Vec::new(alloc);
    for unit in units {
        add_items(&mut found, unit.items.as_slice())?;
    }
    Ok(found)
}
