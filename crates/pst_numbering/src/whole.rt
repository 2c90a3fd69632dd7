//! Whole expressions.
ghost use Rattle.std.specs.Prelude.{◌≡◌, OnOk, IfOk};
ghost use Rattle.pst_ast.specs.ExpressionView.{view_expr};
ghost use Rattle.pst_expr.specs.Tree.{view};
ghost use Rattle.pst_terms.specs.Terms.{term_of};
ghost use Rattle.pst_terms.specs.Slots.{with_term, numbered};
ghost use Rattle.pst_numbering.specs.Kept.{view_all};

use crate::reading::{KeptSlot, PathReader};
use crate::table::SlotTable;
use crate::walk::add_operators;
use pst_ast::ExprNode;
use pst_base::NoMemory;
use pst_expr::Expr;
use std::alloc::Global;
use std::mem;

/// An expression over the numbers of its slots, which go behind those that are there.
pub fn add_expr<R: PathReader>(
    alloc: Global,
    reader: &R,
    slots: &mut Vec<KeptSlot>,
    expr: &ExprNode,
) -> Result<Expr, NoMemory>
    ensures slots { OnOk result (view_all slots.new.items ≡ with_term (view_all slots.old.items) (term_of (R.reads reader.now) (view_expr expr.now))) }
    ensures expr { IfOk result (λ e. view e ≡ numbered (view_all slots.new.items) (term_of (R.reads reader.now) (view_expr expr.now))) }
{
    let mut table = SlotTable::new(alloc, mem::replace(slots, Vec::new(alloc)))?;
    let made = add_operators(alloc, reader, &mut table, expr)?;
    *slots = table.into_slots();
    Ok(made)
}
