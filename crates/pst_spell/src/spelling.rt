//! The tokens of a whole tree.
ghost use Rattle.std.specs.Prelude.{◌≡◌, IfOk};
ghost use Rattle.pst_ast.specs.DeclarationView.{view_unit};
ghost use Rattle.pst_ast.specs.DeclarationSpelling.{spell_unit};

use crate::spell_declaration::add_items;
use pst_ast::Unit;
use pst_base::NoMemory;
use pst_spell_parts::marks::push_mark;
use pst_token::{Kind, Token};
use std::alloc::Global;

/// Gives the tokens that a tree spells, in order, with `End` last.
///
/// `NoMemory` comes only where memory ran out, and leaves nothing behind.
pub fn spell(alloc: Global, unit: &Unit) -> Result<Vec<Token>, NoMemory>
    ensures { IfOk result (λ tokens. tokens.items ≡ spell_unit (view_unit unit.now)) }
{
    let mut tokens = Vec::new(alloc);
    add_items(&mut tokens, unit.items.as_slice())?;
    push_mark(&mut tokens, Kind::End, unit.finish.place)?;
    Ok(tokens)
}
