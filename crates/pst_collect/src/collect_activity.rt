//! What activities declare.
ghost use Rattle.std.specs.Prelude.{◌≡◌, ◌++◌, OnOk, map};
ghost use Rattle.std.specs.List.{flat_map};
ghost use Rattle.pst_ast.specs.ActivityView.{view_activity, view_arm, view_branch, view_core, view_statement, view_with};
ghost use Rattle.pst_ast.specs.Declarations.{in_activity, in_arm, in_branch, in_core, in_statement, in_with};

use crate::collect_constraint::add_set;
use crate::single::push_optional_index;
use pst_ast::{ActivityNode, ArmNode, BranchNode, CoreNode, Declaration, StatementNode, WithNode};
use pst_base::{NoMemory, Place};

// activity = "activity" "{" { stmt } "}"
pub fn add_activity(
    found: &mut Vec<Declaration>,
    owner: Place,
    activity: &ActivityNode,
) -> Result<(), NoMemory>
    ensures { OnOk result (found.new.items ≡ found.old.items ++ in_activity owner (view_activity activity.now)) }
{
    add_statements(found, owner, activity.statements.as_slice())
}

// stmt = ";" | [ NAME ":" ] core
#[cycle(activity)]
fn add_statement(
    found: &mut Vec<Declaration>,
    owner: Place,
    statement: &StatementNode,
) -> Result<(), NoMemory>
    ensures { OnOk result (found.new.items ≡ found.old.items ++ in_statement owner (view_statement statement.now)) }
{
    match statement {
        StatementNode::Empty(_) => Ok(()),
        StatementNode::Labeled { core, .. } => add_core(found, owner, core),
        StatementNode::Plain(core) => add_core(found, owner, core),
    }
}

// What each declares, in order.
#[cycle(activity)]
fn add_statements(
    found: &mut Vec<Declaration>,
    owner: Place,
    statements: &[StatementNode],
) -> Result<(), NoMemory>
    ensures { OnOk result (found.new.items ≡ found.old.items ++ flat_map (in_statement owner) (map view_statement statements.now)) }
{
    for statement in statements {
        add_statement(found, owner, statement)?;
    }
    Ok(())
}

// core
#[cycle(activity)]
fn add_core(found: &mut Vec<Declaration>, owner: Place, core: &CoreNode) -> Result<(), NoMemory>
    ensures { OnOk result (found.new.items ≡ found.old.items ++ in_core owner (view_core core.now)) }
{
    match core {
        CoreNode::Do { with, .. } => add_with(found, owner, with),
        CoreNode::Handle { with, .. } => add_with(found, owner, with),
        CoreNode::Sequence { statements, .. } => {
            add_statements(found, owner, statements.as_slice())
        }
        CoreNode::Together { statements, .. } => {
            add_statements(found, owner, statements.as_slice())
        }
        CoreNode::Select { first, rest, .. } => {
            add_branch(found, owner, first)?;
            add_branches(found, owner, rest.as_slice())
        }
        CoreNode::Repeat {
            index,
            statement,
            ..
        } => {
            push_optional_index(found, owner, index)?;
            add_statement(found, owner, statement)
        }
        CoreNode::If { then, .. } => add_statement(found, owner, then),
        CoreNode::IfElse {
            then,
            otherwise,
            ..
        } => {
            add_statement(found, owner, then)?;
            add_statement(found, owner, otherwise)
        }
        CoreNode::Match { first, rest, .. } => {
            add_arm(found, owner, first)?;
            add_arms(found, owner, rest.as_slice())
        }
        CoreNode::Bind(_) => Ok(()),
    }
}

// branch = [ ( "(" expr ")" [ "[" expr "]" ] | "[" expr "]" ) ":" ] stmt
#[cycle(activity)]
fn add_branch(
    found: &mut Vec<Declaration>,
    owner: Place,
    branch: &BranchNode,
) -> Result<(), NoMemory>
    ensures { OnOk result (found.new.items ≡ found.old.items ++ in_branch owner (view_branch branch.now)) }
{
    add_statement(found, owner, &branch.statement)
}

// What each declares, in order.
#[cycle(activity)]
fn add_branches(
    found: &mut Vec<Declaration>,
    owner: Place,
    branches: &[BranchNode],
) -> Result<(), NoMemory>
    ensures { OnOk result (found.new.items ≡ found.old.items ++ flat_map (in_branch owner) (map view_branch branches.now)) }
{
    for branch in branches {
        add_branch(found, owner, branch)?;
    }
    Ok(())
}

// arm = ( "[" ranges "]" | "default" ) ":" stmt
#[cycle(activity)]
fn add_arm(found: &mut Vec<Declaration>, owner: Place, arm: &ArmNode) -> Result<(), NoMemory>
    ensures { OnOk result (found.new.items ≡ found.old.items ++ in_arm owner (view_arm arm.now)) }
{
    add_statement(found, owner, &arm.statement)
}

// What each declares, in order.
#[cycle(activity)]
fn add_arms(found: &mut Vec<Declaration>, owner: Place, arms: &[ArmNode]) -> Result<(), NoMemory>
    ensures { OnOk result (found.new.items ≡ found.old.items ++ flat_map (in_arm owner) (map view_arm arms.now)) }
{
    for arm in arms {
        add_arm(found, owner, arm)?;
    }
    Ok(())
}

// with = ";" | "with" set
fn add_with(found: &mut Vec<Declaration>, owner: Place, with: &WithNode) -> Result<(), NoMemory>
    ensures { OnOk result (found.new.items ≡ found.old.items ++ in_with owner (view_with with.now)) }
{
    match with {
        WithNode::Nothing(_) => Ok(()),
        WithNode::Set { set, .. } => add_set(found, owner, set),
    }
}
