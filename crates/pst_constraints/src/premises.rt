//! The premises of constraints.
ghost use Rattle.std.specs.Prelude.{◌≡◌, [], IfOk, if◌then◌else◌, map};
ghost use Rattle.pst_ast.specs.ExpressionView.{view_expr};
ghost use Rattle.pst_expr.specs.Tree.{Unary, view};
ghost use Rattle.pst_expr.specs.declared.tree.UnaryOp.TheVariants as unary;
ghost use Rattle.pst_path_readings.specs.Set.{view_setting};
ghost use Rattle.pst_terms.specs.Readings.{expr_term};
ghost use Rattle.pst_terms.specs.Terms.{Prefix};
ghost use Rattle.pst_constraints.specs.Implied as tree;
ghost use Rattle.pst_constraints.specs.Implied.{view_premises};
ghost use Rattle.pst_sources.specs.Shown.{sources_of};

use pst_ast::ExprNode;
use pst_base::NoMemory;
use pst_expr::{Expr, UnaryOp};
use pst_numbering::{KeptSlot, add_expr};
use pst_path_readings::{Reader, Setting};
use pst_sources::Sources;
use std::alloc::Global;

/// The premises of a constraint, the outermost first, over the numbers of their slots.
#[derive(Drop)]
pub struct Premises {
    /// The premises.
    pub conditions: Vec<Expr>,
    /// Their slots.
    pub slots: Vec<KeptSlot>,
}

/// No premises.
pub fn no_premises(alloc: Global) -> Premises
    ensures { view_premises result ≡ record { conditions = []; slots = [] } }
{
    Premises {
        conditions: Vec::new(alloc),
        slots: Vec::new(alloc),
    }
}

/// A copy of slots.
pub fn copied_slots(alloc: Global, slots: &[KeptSlot]) -> Result<Vec<KeptSlot>, NoMemory>
    ensures { IfOk result (λ copy. copy.items ≡ slots.now) }
{
    let mut copy = Vec::new(alloc);
    for slot in slots {
        copy.push(*slot)?;
    }
    Ok(copy)
}

// A copy of expressions.
fn copied_exprs(alloc: Global, exprs: &[Expr]) -> Result<Vec<Expr>, NoMemory>
    ensures { IfOk result (λ copy. map view copy.items ≡ map view exprs.now) }
{
    let mut copy = Vec::new(alloc);
    for expr in exprs {
        copy.push(expr.clone()?)?;
    }
    Ok(copy)
}

// An expression, or its negation.
fn negated_if(alloc: Global, negated: bool, expr: Expr) -> Result<Expr, NoMemory>
    ensures { IfOk result (λ e. view e ≡ (if negated then Unary unary.Not (view expr) else view expr)) }
{
    if !negated {
        return Ok(expr);
    }
    Ok(Expr::Unary(UnaryOp::Not, Box::new(alloc, expr)?))
}

/// Premises and a further one, or its negation.
#[tactic(auto, using(crate::proofs::Premised::premise_is))]
pub fn with_premise(
    sources: &Sources<'_>,
    setting: &Setting<'_>,
    premises: &Premises,
    condition: &ExprNode,
    negated: bool,
) -> Result<Premises, NoMemory>
    ensures { IfOk result (λ p. view_premises p ≡ tree.with_premise (view_premises premises.now) (if negated then Prefix unary.Not (expr_term (sources_of sources.now) (view_setting setting.now) (view_expr condition.now)) else expr_term (sources_of sources.now) (view_setting setting.now) (view_expr condition.now))) }
{
    let alloc = sources.known().alloc();
    let mut slots = copied_slots(alloc, premises.slots.as_slice())?;
    let expr = add_expr(alloc, &Reader { sources, setting }, &mut slots, condition)?;
    let expr = negated_if(alloc, negated, expr)?;
    let mut conditions = copied_exprs(alloc, premises.conditions.as_slice())?;
    conditions.push(expr)?;
    Ok(Premises { conditions, slots })
}
