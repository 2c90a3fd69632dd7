//! What the files together declare.
ghost use Rattle.std.specs.Prelude.{◌≡◌, ◌++◌, IfOk, OnOk, map};
ghost use Rattle.pst_ast.specs.DeclarationView.{view_unit};
ghost use Rattle.pst_ast.specs.Declarations;

use crate::collect_type::add_items;
use pst_ast::{Declaration, Unit};
use pst_base::NoMemory;
use std::alloc::Global;

// What a file declares.
fn add_unit(found: &mut Vec<Declaration>, unit: &Unit) -> Result<(), NoMemory>
    ensures { OnOk result (found.new.items ≡ found.old.items ++ Declarations.in_unit (view_unit unit.now)) }
{
    add_items(found, unit.items.as_slice())
}

/// What the files together declare, in the order of their text.
///
/// `NoMemory` comes only where memory ran out, and leaves nothing behind.
pub fn declarations(alloc: Global, units: &[Unit]) -> Result<Vec<Declaration>, NoMemory>
    ensures { IfOk result (λ found. found.items ≡ Declarations.declarations (map view_unit units.now)) }
{
    let mut found = Vec::new(alloc);
    for unit in units {
        add_unit(&mut found, unit)?;
    }
    Ok(found)
}
