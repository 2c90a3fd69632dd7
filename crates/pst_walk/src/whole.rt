//! The walk over the sources.
ghost use Rattle.std.specs.Prelude.{◌≡◌, OnOk, map};
ghost use Rattle.std.specs.List.{flat_map, fold};
ghost use Rattle.pst_ast.specs.DeclarationView.{view_item, view_unit};
ghost use Rattle.pst_ast.specs.Uses.{unit_item_uses, unit_uses, uses};

use crate::show_component::show_component;
use crate::show_type::{show_enum, show_function, show_object};
use pst_ast::{Item, Unit};
use pst_base::NoMemory;
use pst_walk_parts::Visitor;
use std::alloc::Global;

/// Shows a visitor each use of a name in the sources, in the order of the text.
#[tactic(auto, using(crate::proofs::Folds::fold_append))]
pub fn walk<V: Visitor>(alloc: Global, units: &[Unit], visitor: &mut V) -> Result<(), NoMemory>
    ensures { OnOk result (visitor.new ≡ fold V.step visitor.old (uses (map view_unit units.now))) }
{
    for unit in units {
        show_unit(alloc, visitor, unit)?;
    }
    Ok(())
}

// Shows the uses in a file.
#[tactic(auto, using(crate::proofs::Folds::fold_append))]
fn show_unit<V: Visitor>(alloc: Global, visitor: &mut V, unit: &Unit) -> Result<(), NoMemory>
    ensures { OnOk result (visitor.new ≡ fold V.step visitor.old (unit_uses (view_unit unit.now))) }
{
    show_items(alloc, visitor, unit.items.as_slice())
}

// Shows the uses in what a file declares.
#[tactic(auto, using(crate::proofs::Folds::fold_append))]
fn show_items<V: Visitor>(alloc: Global, visitor: &mut V, items: &[Item]) -> Result<(), NoMemory>
    ensures { OnOk result (visitor.new ≡ fold V.step visitor.old (flat_map unit_item_uses (map view_item items.now))) }
{
    for item in items {
        show_item(alloc, visitor, item)?;
    }
    Ok(())
}

// Shows the uses in a declaration at file level.
#[tactic(auto, using(crate::proofs::Folds::fold_append))]
fn show_item<V: Visitor>(alloc: Global, visitor: &mut V, item: &Item) -> Result<(), NoMemory>
    ensures { OnOk result (visitor.new ≡ fold V.step visitor.old (unit_item_uses (view_item item.now))) }
{
    match item {
        Item::Component(component) => show_component(alloc, visitor, component),
        Item::Object(object) => show_object(alloc, visitor, None, object),
        Item::Enum(enum_) => show_enum(alloc, visitor, None, enum_),
        Item::Function(function) => show_function(alloc, visitor, None, function),
        Item::Empty(_) => Ok(()),
    }
}
