//! The uses in constraints.
ghost use Rattle.std.specs.Prelude.{◌≡◌, OnOk, map};
ghost use Rattle.std.specs.List.{flat_map, fold};
ghost use Rattle.pst_ast.specs.ConstraintView.{view_constraint, view_constraint_declaration, view_constraint_item};
ghost use Rattle.pst_ast.specs.Uses.{constraint_uses, item_uses, set_uses};

use crate::show_shared::{show_next_exprs, show_whole};
use crate::{Role, Visitor};
use pst_ast::{
    ConstraintContent, ConstraintDeclaration, ConstraintItem, ConstraintNode, Environment,
};
use pst_base::NoMemory;

// Shows the uses in a set of constraints.
#[cycle(constraint_uses)]
#[tactic(auto, using(crate::proofs::Folds::fold_append))]
pub fn show_set<V: Visitor>(
    visitor: &mut V,
    at: &mut Environment,
    set: &ConstraintNode,
) -> Result<(), NoMemory>
    ensures uses { OnOk result (visitor.new ≡ fold V.step visitor.old (set_uses at.old (view_constraint set.now))) }
    ensures kept { OnOk result (at.new ≡ at.old) }
{
    match set {
        ConstraintNode::One(item) => show_item(visitor, at, item),
        ConstraintNode::Block { items, .. } => show_items(visitor, at, items.as_slice()),
    }
}

// Shows the uses in a constraint.
#[cycle(constraint_uses)]
#[tactic(auto, using(crate::proofs::Folds::fold_append))]
fn show_item<V: Visitor>(
    visitor: &mut V,
    at: &mut Environment,
    item: &ConstraintItem,
) -> Result<(), NoMemory>
    ensures uses { OnOk result (visitor.new ≡ fold V.step visitor.old (item_uses at.old (view_constraint_item item.now))) }
    ensures kept { OnOk result (at.new ≡ at.old) }
{
    match item {
        ConstraintItem::Empty(_) => Ok(()),
        ConstraintItem::Expr { expr, .. } => show_whole(visitor, at, Role::Constrains, expr),
        ConstraintItem::Implies { condition, set, .. } => {
            show_whole(visitor, at, Role::Constrains, condition)?;
            show_set(visitor, at, set)
        }
        ConstraintItem::If {
            condition,
            then,
            ..
        } => {
            show_whole(visitor, at, Role::Constrains, condition)?;
            show_set(visitor, at, then)
        }
        ConstraintItem::IfElse {
            condition,
            then,
            otherwise,
            ..
        } => {
            show_whole(visitor, at, Role::Constrains, condition)?;
            show_set(visitor, at, then)?;
            show_set(visitor, at, otherwise)
        }
        ConstraintItem::Unique { first, rest, .. } => {
            visitor.uniques(first, rest.as_slice())?;
            show_whole(visitor, at, Role::Constrains, first)?;
            show_next_exprs(visitor, at, rest.as_slice())
        }
        ConstraintItem::Foreach {
            first,
            rest,
            index,
            set,
            ..
        } => {
            visitor.repeats(at, *first, rest.as_slice())?;
            at.inner.push(*index)?;
            show_set(visitor, at, set)?;
            at.inner.pop();
            Ok(())
        }
    }
}

// Shows the uses in constraints one after another.
#[cycle(constraint_uses)]
#[tactic(auto, using(crate::proofs::Folds::fold_append))]
fn show_items<V: Visitor>(
    visitor: &mut V,
    at: &mut Environment,
    items: &[ConstraintItem],
) -> Result<(), NoMemory>
    ensures uses { OnOk result (visitor.new ≡ fold V.step visitor.old (flat_map (item_uses at.old) (map view_constraint_item items.now))) }
    ensures kept { OnOk result (at.new ≡ at.old) }
{
    for item in items {
        show_item(visitor, at, item)?;
    }
    Ok(())
}

// Shows the uses in a declared constraint.
#[tactic(auto, using(crate::proofs::Folds::fold_append))]
pub fn show_constraint<V: Visitor>(
    visitor: &mut V,
    at: &mut Environment,
    declaration: &ConstraintDeclaration,
) -> Result<(), NoMemory>
    ensures uses { OnOk result (visitor.new ≡ fold V.step visitor.old (constraint_uses at.old (view_constraint_declaration declaration.now))) }
    ensures kept { OnOk result (at.new ≡ at.old) }
{
    match &declaration.content {
        ConstraintContent::Named { items, .. } => show_items(visitor, at, items.as_slice()),
        ConstraintContent::Set(set) => show_set(visitor, at, set),
    }
}
