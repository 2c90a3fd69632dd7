//! Types with their bases.
ghost use Rattle.std.specs.Prelude.{◌≡◌, IfOk, reverse};
ghost use Rattle.pst_tree.specs.Bases;

use pst_ast::Declaration;
use pst_base::NoMemory;
use pst_index::Index;
use std::alloc::Global;

// A type, its base, the base's base and so on.
#[tactic(auto, unfolding(crate::specs::Bases::with_bases))]
fn chain_of(
    alloc: Global,
    index: &Index,
    declaration: &Declaration,
) -> Result<Vec<Declaration>, NoMemory>
    ensures { IfOk result (λ chain. reverse chain.items ≡ Bases.with_bases index.now declaration.now) }
{
    let mut chain = Vec::new(alloc);
    let mut at = Some(*declaration);
    let mut left = index.as_slice().len();
    while let Some(here) = at {
        if left == 0 {
            return Ok(chain);
        }
        chain.push(here)?;
        at = index.base_of(&here);
        left -= 1;
    }
    Ok(chain)
}

/// A type and its bases, the furthest first.
pub fn with_bases(
    alloc: Global,
    index: &Index,
    declaration: &Declaration,
) -> Result<Vec<Declaration>, NoMemory>
    ensures { IfOk result (λ bases. bases.items ≡ Bases.with_bases index.now declaration.now) }
{
    let mut chain = chain_of(alloc, index, declaration)?;
    let mut bases = Vec::new(alloc);
    while let Some(base) = chain.pop() {
        bases.push(base)?;
    }
    Ok(bases)
}
