//! Pairs of a `unique`.
ghost use Rattle.std.specs.Prelude.{◌≡◌, ◌++◌, ◌∷◌, OnOk, map};
ghost use Rattle.pst_ast.specs.ExpressionView.{view_expr};
ghost use Rattle.pst_elab_rules.specs.Constraints.{pairs};
ghost use Rattle.pst_expr.specs.declared.tree.BinaryOp.TheVariants as binary;
ghost use Rattle.pst_model.specs.ConstraintTree.{view_constraint};
ghost use Rattle.pst_path_readings.specs.Set.{view_setting};
ghost use Rattle.pst_terms.specs.Readings.{expr_term};
ghost use Rattle.pst_terms.specs.Terms.{Infix};
ghost use Rattle.pst_constraints.specs.Implied.{made, view_premises};
ghost use Rattle.pst_constraints.specs.Paired.{next_terms};
ghost use Rattle.pst_sources.specs.Shown.{sources_of};

use crate::made::made_of_pair;
use crate::premises::Premises;
use pst_ast::{ExprNode, NextExpr};
use pst_base::NoMemory;
use pst_model::Constraint;
use pst_path_readings::Setting;
use pst_sources::Sources;

// Adds that an item differs from each of those behind it.
fn add_pairs_of(
    sources: &Sources<'_>,
    setting: &Setting<'_>,
    premises: &Premises,
    found: &mut Vec<Constraint>,
    item: &ExprNode,
    rest: &[NextExpr],
) -> Result<(), NoMemory>
    ensures { OnOk result (map view_constraint found.new.items ≡ map view_constraint found.old.items ++ map (made (view_premises premises.now)) (map (Infix binary.NotEqual (expr_term (sources_of sources.now) (view_setting setting.now) (view_expr item.now))) (next_terms (sources_of sources.now) (view_setting setting.now) rest.now))) }
{
    for next in rest {
        found.push(made_of_pair(sources, setting, premises, item, &next.expr)?)?;
    }
    Ok(())
}

/// Adds that no two items are equal.
pub fn add_pairs(
    sources: &Sources<'_>,
    setting: &Setting<'_>,
    premises: &Premises,
    found: &mut Vec<Constraint>,
    first: &ExprNode,
    rest: &[NextExpr],
) -> Result<(), NoMemory>
    ensures { OnOk result (map view_constraint found.new.items ≡ map view_constraint found.old.items ++ map (made (view_premises premises.now)) (pairs (expr_term (sources_of sources.now) (view_setting setting.now) (view_expr first.now) ∷ next_terms (sources_of sources.now) (view_setting setting.now) rest.now))) }
{
    add_pairs_of(sources, setting, premises, found, first, rest)?;
    let mut left = rest;
    while let Some((next, more)) = left.split_first() {
        add_pairs_of(sources, setting, premises, found, &next.expr, more)?;
        left = more;
    }
    Ok(())
}
