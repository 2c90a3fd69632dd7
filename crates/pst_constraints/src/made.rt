//! Single constraints.
ghost use Rattle.std.specs.Prelude.{◌≡◌, IfOk, map};
ghost use Rattle.pst_ast.specs.ExpressionView.{view_expr};
ghost use Rattle.pst_expr.specs.Tree.{view};
ghost use Rattle.pst_expr.specs.declared.tree.BinaryOp.TheVariants as binary;
ghost use Rattle.pst_model.specs.ConstraintTree.{view_constraint};
ghost use Rattle.pst_numbering.specs.Kept.{view_all};
ghost use Rattle.pst_path_readings.specs.Set.{view_setting};
ghost use Rattle.pst_terms.specs.Readings as reading;
ghost use Rattle.pst_terms.specs.Readings.{expr_term};
ghost use Rattle.pst_terms.specs.Terms.{Infix};
ghost use Rattle.pst_constraints.specs.Implied.{implied_by, made, view_premises};
ghost use Rattle.pst_sources.specs.Shown.{sources_of};

use crate::premises::{Premises, copied_slots};
use pst_ast::ExprNode;
use pst_base::NoMemory;
use pst_expr::{BinaryOp, Expr};
use pst_model::Constraint;
use pst_numbering::{KeptSlot, add_expr, slots_of};
use pst_path_readings::{Reader, Setting};
use pst_sources::Sources;
use std::alloc::Global;

// An expression that all of some premises imply.
fn implied(alloc: Global, conditions: &[Expr], expr: Expr) -> Result<Expr, NoMemory>
    ensures { IfOk result (λ e. view e ≡ implied_by (map view conditions.now) (view expr)) }
{
    let mut found = expr;
    let mut left = conditions;
    while let Some((last, before)) = left.split_last() {
        let condition = Box::new(alloc, last.clone()?)?;
        found = Expr::Binary(BinaryOp::Implies, condition, Box::new(alloc, found)?);
        left = before;
    }
    Ok(found)
}

// A constraint of its expression and slots.
fn finished(
    alloc: Global,
    premises: &Premises,
    expr: Expr,
    slots: &[KeptSlot],
) -> Result<Constraint, NoMemory>
    ensures { IfOk result (λ c. view_constraint c ≡ record { expression = implied_by (view_premises premises.now).conditions (view expr); slots = view_all slots.now }) }
{
    let expr = implied(alloc, premises.conditions.as_slice(), expr)?;
    let slots = slots_of(alloc, slots)?;
    Ok(Constraint { expr, slots })
}

/// An expression under premises.
#[tactic(auto, using(crate::proofs::Premised::made_is))]
pub fn made_of(
    sources: &Sources<'_>,
    setting: &Setting<'_>,
    premises: &Premises,
    expr: &ExprNode,
) -> Result<Constraint, NoMemory>
    ensures { IfOk result (λ c. view_constraint c ≡ made (view_premises premises.now) (expr_term (sources_of sources.now) (view_setting setting.now) (view_expr expr.now))) }
{
    let alloc = sources.known().alloc();
    let mut slots = copied_slots(alloc, premises.slots.as_slice())?;
    let expr = add_expr(alloc, &Reader { sources, setting }, &mut slots, expr)?;
    finished(alloc, premises, expr, slots.as_slice())
}

/// Two expressions that aren't equal, under premises.
#[tactic(auto, using(crate::proofs::Premised::pair_is))]
pub fn made_of_pair(
    sources: &Sources<'_>,
    setting: &Setting<'_>,
    premises: &Premises,
    left: &ExprNode,
    right: &ExprNode,
) -> Result<Constraint, NoMemory>
    ensures { IfOk result (λ c. view_constraint c ≡ made (view_premises premises.now) (Infix binary.NotEqual (expr_term (sources_of sources.now) (view_setting setting.now) (view_expr left.now)) (expr_term (sources_of sources.now) (view_setting setting.now) (view_expr right.now)))) }
{
    let alloc = sources.known().alloc();
    let reader = Reader { sources, setting };
    let mut slots = copied_slots(alloc, premises.slots.as_slice())?;
    let left = add_expr(alloc, &reader, &mut slots, left)?;
    let right = add_expr(alloc, &reader, &mut slots, right)?;
    let left = Box::new(alloc, left)?;
    let expr = Expr::Binary(BinaryOp::NotEqual, left, Box::new(alloc, right)?);
    finished(alloc, premises, expr, slots.as_slice())
}

/// A condition, guard, count, matched value, argument or other expression by itself.
pub fn expression_of(
    sources: &Sources<'_>,
    setting: &Setting<'_>,
    expr: &ExprNode,
) -> Result<Constraint, NoMemory>
    ensures { IfOk result (λ c. view_constraint c ≡ reading.expression_of (sources_of sources.now) (view_setting setting.now) (view_expr expr.now)) }
{
    let alloc = sources.known().alloc();
    let mut slots = Vec::new(alloc);
    let expr = add_expr(alloc, &Reader { sources, setting }, &mut slots, expr)?;
    let slots = slots_of(alloc, slots.as_slice())?;
    Ok(Constraint { expr, slots })
}
