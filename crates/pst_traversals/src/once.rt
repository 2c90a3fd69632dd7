//! Whether statements traverse a handle exactly once.
ghost use Rattle.std.specs.Prelude.{◌≡◌, ◌↔◌, IfOk, IsTrue, map};
ghost use Rattle.pst_ast.specs.ActivityView.{view_statement};
ghost use Rattle.pst_type_rules.specs.Handles.{IsSteady};
ghost use Rattle.pst_traversals.specs.Listed.{withins};
ghost use Rattle.pst_traversals.specs.Tallied.{noted as the_noted, tally};

use crate::listing::{Traversed, list_traversals};
use pst_ast::StatementNode;
use pst_base::{NameId, NoMemory};
use std::alloc::Global;

// After one more traversal: whether it is the only one, and not within something.
fn noted(so_far: Option<bool>, within: bool) -> Option<bool>
    ensures { result ≡ the_noted so_far within }
{
    match so_far {
        None => Some(!within),
        Some(_) => Some(false),
    }
}

// Whether a handle is traversed exactly once, and not within something; none where it isn't.
#[tactic(auto, using(crate::proofs::Counted::one_noted))]
fn tally_in(traversals: &[Traversed], handle: NameId) -> Option<bool>
    ensures { result ≡ tally (withins handle traversals.now) }
{
    let mut so_far = None;
    for traversed in traversals {
        if traversed.handle.0 == handle.0 {
            so_far = noted(so_far, traversed.within);
        }
    }
    so_far
}

/// Whether statements traverse a handle exactly once, and not within a `select`, `repeat`, `if` or
/// `match`.
pub fn is_steady(
    alloc: Global,
    statements: &[StatementNode],
    handle: NameId,
) -> Result<bool, NoMemory>
    ensures { IfOk result (λ yes. IsTrue yes ↔ IsSteady handle (map view_statement statements.now)) }
{
    let traversals = list_traversals(alloc, statements)?;
    match tally_in(traversals.as_slice(), handle) {
        Some(once) => Ok(once),
        None => Ok(false),
    }
}
