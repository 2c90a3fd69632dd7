//! The uses in activities.
ghost use Rattle.std.specs.Prelude.{◌≡◌, OnOk, map};
ghost use Rattle.std.specs.List.{flat_map, fold};
ghost use Rattle.pst_ast.specs.ActivityView.{view_activity, view_arm, view_branch, view_core, view_statement};
ghost use Rattle.pst_ast.specs.Uses.{activity_uses, arm_uses, branch_uses, core_uses, statement_uses, with_index};

use crate::show_bind::show_bind;
use crate::show_join::show_optional_join;
use crate::show_traversal::{
    by_handle, core_place, show_arm_label, show_matched, show_optional_guard, show_performed,
    show_with,
};
use pst_ast::{
    ActivityNode, ArmNode, BranchNode, CoreNode, Environment, LabelNode, StatementNode, Traversal,
};
use pst_base::NoMemory;
use pst_walk_parts::show_shared::show_whole;
use pst_walk_parts::{Role, Visitor, Wanted};

// Shows the uses in an activity.
pub fn show_activity<V: Visitor>(
    visitor: &mut V,
    at: &mut Environment,
    activity: &ActivityNode,
) -> Result<(), NoMemory>
    ensures uses { OnOk result (visitor.new ≡ fold V.step visitor.old (activity_uses at.old (view_activity activity.now))) }
    ensures kept { OnOk result (at.new ≡ at.old) }
{
    show_statements(visitor, at, activity.statements.as_slice())
}

// Shows the uses in a statement.
#[cycle(activity_uses)]
#[tactic(auto, using(crate::proofs::Folds::fold_append))]
fn show_statement<V: Visitor>(
    visitor: &mut V,
    at: &mut Environment,
    statement: &StatementNode,
) -> Result<(), NoMemory>
    ensures uses { OnOk result (visitor.new ≡ fold V.step visitor.old (statement_uses at.old (view_statement statement.now))) }
    ensures kept { OnOk result (at.new ≡ at.old) }
{
    match statement {
        StatementNode::Empty(_) => Ok(()),
        StatementNode::Labeled { label, core } => {
            show_performed(visitor, at, label.name.place, core)?;
            show_core(visitor, at, core)
        }
        StatementNode::Plain(core) => {
            show_performed(visitor, at, core_place(core), core)?;
            show_core(visitor, at, core)
        }
    }
}

// Shows the uses in statements one after another.
#[cycle(activity_uses)]
#[tactic(auto, using(crate::proofs::Folds::fold_append))]
fn show_statements<V: Visitor>(
    visitor: &mut V,
    at: &mut Environment,
    statements: &[StatementNode],
) -> Result<(), NoMemory>
    ensures uses { OnOk result (visitor.new ≡ fold V.step visitor.old (flat_map (statement_uses at.old) (map view_statement statements.now))) }
    ensures kept { OnOk result (at.new ≡ at.old) }
{
    for statement in statements {
        show_statement(visitor, at, statement)?;
    }
    Ok(())
}

// Shows the uses in a statement behind its label.
#[cycle(activity_uses)]
#[tactic(auto, using(crate::proofs::Folds::fold_append))]
fn show_core<V: Visitor>(
    visitor: &mut V,
    at: &mut Environment,
    core: &CoreNode,
) -> Result<(), NoMemory>
    ensures uses { OnOk result (visitor.new ≡ fold V.step visitor.old (core_uses at.old (view_core core.now))) }
    ensures kept { OnOk result (at.new ≡ at.old) }
{
    match core {
        CoreNode::Do { name, with, .. } => {
            visitor.names_type(at.component, Wanted::Action, *name)?;
            show_with(visitor, at, Traversal::ByType(*name), with)
        }
        CoreNode::Handle { name, with } => {
            visitor.traverses(at, *name)?;
            let traversal = by_handle(at, *name);
            show_with(visitor, at, traversal, with)
        }
        CoreNode::Sequence { statements, .. } => {
            show_statements(visitor, at, statements.as_slice())
        }
        CoreNode::Together {
            join,
            statements,
            ..
        } => {
            show_optional_join(visitor, at, statements.as_slice(), join)?;
            show_statements(visitor, at, statements.as_slice())
        }
        CoreNode::Select { first, rest, .. } => {
            show_branch(visitor, at, first)?;
            show_branches(visitor, at, rest.as_slice())
        }
        CoreNode::Repeat {
            index,
            count,
            statement,
            ..
        } => {
            show_whole(visitor, at, Role::Condition, count)?;
            show_repeated(visitor, at, index, statement)
        }
        CoreNode::If {
            condition,
            then,
            ..
        } => {
            show_whole(visitor, at, Role::Condition, condition)?;
            show_statement(visitor, at, then)
        }
        CoreNode::IfElse {
            condition,
            then,
            otherwise,
            ..
        } => {
            show_whole(visitor, at, Role::Condition, condition)?;
            show_statement(visitor, at, then)?;
            show_statement(visitor, at, otherwise)
        }
        CoreNode::Match {
            expr,
            first,
            rest,
            ..
        } => {
            let arms = rest.as_slice();
            show_matched(visitor, at, expr, first, arms)?;
            show_arm(visitor, at, first)?;
            show_arms(visitor, at, arms)
        }
        CoreNode::Bind(bind) => show_bind(visitor, at, bind),
    }
}

// Shows the uses in a statement that is repeated, in the scope of the index.
#[cycle(activity_uses)]
#[tactic(auto, using(crate::proofs::Folds::fold_append))]
fn show_repeated<V: Visitor>(
    visitor: &mut V,
    at: &mut Environment,
    index: &Option<LabelNode>,
    statement: &StatementNode,
) -> Result<(), NoMemory>
    ensures uses { OnOk result (visitor.new ≡ fold V.step visitor.old (statement_uses (with_index at.old index.now) (view_statement statement.now))) }
    ensures kept { OnOk result (at.new ≡ at.old) }
{
    match index {
        None => show_statement(visitor, at, statement),
        Some(index) => {
            at.inner.push(index.name)?;
            show_statement(visitor, at, statement)?;
            at.inner.pop();
            Ok(())
        }
    }
}

// Shows the uses in a branch.
#[cycle(activity_uses)]
#[tactic(auto, using(crate::proofs::Folds::fold_append))]
fn show_branch<V: Visitor>(
    visitor: &mut V,
    at: &mut Environment,
    branch: &BranchNode,
) -> Result<(), NoMemory>
    ensures uses { OnOk result (visitor.new ≡ fold V.step visitor.old (branch_uses at.old (view_branch branch.now))) }
    ensures kept { OnOk result (at.new ≡ at.old) }
{
    show_optional_guard(visitor, at, &branch.guard)?;
    show_statement(visitor, at, &branch.statement)
}

// Shows the uses in branches one after another.
#[cycle(activity_uses)]
#[tactic(auto, using(crate::proofs::Folds::fold_append))]
fn show_branches<V: Visitor>(
    visitor: &mut V,
    at: &mut Environment,
    branches: &[BranchNode],
) -> Result<(), NoMemory>
    ensures uses { OnOk result (visitor.new ≡ fold V.step visitor.old (flat_map (branch_uses at.old) (map view_branch branches.now))) }
    ensures kept { OnOk result (at.new ≡ at.old) }
{
    for branch in branches {
        show_branch(visitor, at, branch)?;
    }
    Ok(())
}

// Shows the uses in an arm.
#[cycle(activity_uses)]
#[tactic(auto, using(crate::proofs::Folds::fold_append))]
fn show_arm<V: Visitor>(
    visitor: &mut V,
    at: &mut Environment,
    arm: &ArmNode,
) -> Result<(), NoMemory>
    ensures uses { OnOk result (visitor.new ≡ fold V.step visitor.old (arm_uses at.old (view_arm arm.now))) }
    ensures kept { OnOk result (at.new ≡ at.old) }
{
    show_arm_label(visitor, at, &arm.label)?;
    show_statement(visitor, at, &arm.statement)
}

// Shows the uses in arms one after another.
#[cycle(activity_uses)]
#[tactic(auto, using(crate::proofs::Folds::fold_append))]
fn show_arms<V: Visitor>(
    visitor: &mut V,
    at: &mut Environment,
    arms: &[ArmNode],
) -> Result<(), NoMemory>
    ensures uses { OnOk result (visitor.new ≡ fold V.step visitor.old (flat_map (arm_uses at.old) (map view_arm arms.now))) }
    ensures kept { OnOk result (at.new ≡ at.old) }
{
    for arm in arms {
        show_arm(visitor, at, arm)?;
    }
    Ok(())
}
