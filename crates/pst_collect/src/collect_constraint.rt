//! What constraints declare.
ghost use Rattle.std.specs.Prelude.{◌≡◌, ◌++◌, OnOk, map};
ghost use Rattle.std.specs.List.{flat_map};
ghost use Rattle.pst_ast.specs.ConstraintView.{view_constraint, view_constraint_content, view_constraint_declaration, view_constraint_item};
ghost use Rattle.pst_ast.specs.Declarations.{in_constraint, in_constraint_content, in_item, in_set};

use crate::single::{push_index, push_member};
use pst_ast::{
    ConstraintContent, ConstraintDeclaration, ConstraintItem, ConstraintNode, Declaration, Sort,
};
use pst_base::{NoMemory, Place};

// set = citem | "{" { citem } "}"
#[cycle(constraint)]
pub fn add_set(
    found: &mut Vec<Declaration>,
    owner: Place,
    set: &ConstraintNode,
) -> Result<(), NoMemory>
    ensures { OnOk result (found.new.items ≡ found.old.items ++ in_set owner (view_constraint set.now)) }
{
    match set {
        ConstraintNode::One(item) => add_item(found, owner, item),
        ConstraintNode::Block { items, .. } => add_items(found, owner, items.as_slice()),
    }
}

// citem
#[cycle(constraint)]
fn add_item(
    found: &mut Vec<Declaration>,
    owner: Place,
    item: &ConstraintItem,
) -> Result<(), NoMemory>
    ensures { OnOk result (found.new.items ≡ found.old.items ++ in_item owner (view_constraint_item item.now)) }
{
    match item {
        ConstraintItem::Empty(_) => Ok(()),
        ConstraintItem::Expr { .. } => Ok(()),
        ConstraintItem::Implies { set, .. } => add_set(found, owner, set),
        ConstraintItem::If { then, .. } => add_set(found, owner, then),
        ConstraintItem::IfElse {
            then,
            otherwise,
            ..
        } => {
            add_set(found, owner, then)?;
            add_set(found, owner, otherwise)
        }
        ConstraintItem::Unique { .. } => Ok(()),
        ConstraintItem::Foreach { index, set, .. } => {
            push_index(found, owner, *index)?;
            add_set(found, owner, set)
        }
    }
}

// What each declares, in order.
#[cycle(constraint)]
fn add_items(
    found: &mut Vec<Declaration>,
    owner: Place,
    items: &[ConstraintItem],
) -> Result<(), NoMemory>
    ensures { OnOk result (found.new.items ≡ found.old.items ++ flat_map (in_item owner) (map view_constraint_item items.now)) }
{
    for item in items {
        add_item(found, owner, item)?;
    }
    Ok(())
}

// constraint = "constraint" ( NAME "{" { citem } "}" | set )
pub fn add_constraint(
    found: &mut Vec<Declaration>,
    owner: Place,
    constraint: &ConstraintDeclaration,
) -> Result<(), NoMemory>
    ensures { OnOk result (found.new.items ≡ found.old.items ++ in_constraint owner (view_constraint_declaration constraint.now)) }
{
    add_constraint_content(found, owner, &constraint.content)
}

// What stands behind the word `constraint`.
fn add_constraint_content(
    found: &mut Vec<Declaration>,
    owner: Place,
    content: &ConstraintContent,
) -> Result<(), NoMemory>
    ensures { OnOk result (found.new.items ≡ found.old.items ++ in_constraint_content owner (view_constraint_content content.now)) }
{
    match content {
        ConstraintContent::Named { name, items, .. } => {
            push_member(found, owner, Sort::Constraint, *name)?;
            add_items(found, owner, items.as_slice())
        }
        ConstraintContent::Set(set) => add_set(found, owner, set),
    }
}
