//! What the rules of handles ask of the sources.
ghost use Rattle.std.specs.Prelude.{◌≡◌, IfOk, map};
ghost use Rattle.std.specs.List.{flat_map};
ghost use Rattle.pst_ast.specs.DeclarationView.{view_unit};
ghost use Rattle.pst_ast.specs.Uses.{uses};
ghost use Rattle.pst_type_rules.specs.Binds.{pairs};
ghost use Rattle.pst_handle_uses.specs.Handled.{judgings_of, tied};

use crate::visitor::HandleUses;
use pst_ast::Unit;
use pst_base::{Names, NoMemory};
use pst_index::Index;
use pst_walk::walk;
use std::alloc::Global;

/// What the rules of handles ask of the sources, in the order of the text.
#[tactic(auto, using(crate::proofs::Walked::walked))]
pub fn handle_uses<'a>(
    alloc: Global,
    units: &[Unit],
    index: &'a Index,
    names: &'a Names,
) -> Result<HandleUses<'a>, NoMemory>
    ensures ties { IfOk result (λ u. u.ties ≡ map (tied index.now names.now) (pairs (map view_unit units.now))) }
    ensures judgings { IfOk result (λ u. u.judgings ≡ flat_map (judgings_of index.now names.now) (uses (map view_unit units.now))) }
{
    let mut found = HandleUses::new(alloc, index, names);
    walk(alloc, units, &mut found)?;
    Ok(found)
}
