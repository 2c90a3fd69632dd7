//! The traversals in an activity.
ghost use Rattle.std.specs.Prelude.{◌≡◌, ◌++◌, true, false, IfOk, OnOk, map};
ghost use Rattle.std.specs.List.{flat_map};
ghost use Rattle.pst_ast.specs.ActivityView.{view_arm, view_branch, view_core, view_statement};
ghost use Rattle.pst_traversals.specs.Listed.{all_in_arm, all_in_branch, all_in_core, all_in_statement};

use pst_ast::{ArmNode, BranchNode, CoreNode, StatementNode};
use pst_base::{NameId, NoMemory};
use std::alloc::Global;

/// A traversal of a handle.
#[derive(Clone, Copy, PartialEq, Eq)]
pub struct Traversed {
    /// The handle's name.
    pub handle: NameId,
    /// Whether it stands within a `select`, `repeat`, `if` or `match`.
    pub within: bool,
}

// Adds the traversals in a statement.
#[cycle(traversals)]
#[tactic(auto, using(crate::proofs::Joined::joined))]
fn add_statement(
    found: &mut Vec<Traversed>,
    within: bool,
    statement: &StatementNode,
) -> Result<(), NoMemory>
    ensures { OnOk result (found.new.items ≡ found.old.items ++ all_in_statement within (view_statement statement.now)) }
{
    match statement {
        StatementNode::Empty(_) => Ok(()),
        StatementNode::Labeled { core, .. } => add_core(found, within, core),
        StatementNode::Plain(core) => add_core(found, within, core),
    }
}

// Adds the traversals in statements one after another.
#[cycle(traversals)]
#[tactic(auto, using(crate::proofs::Joined::joined))]
fn add_statements(
    found: &mut Vec<Traversed>,
    within: bool,
    statements: &[StatementNode],
) -> Result<(), NoMemory>
    ensures { OnOk result (found.new.items ≡ found.old.items ++ flat_map (all_in_statement within) (map view_statement statements.now)) }
{
    for statement in statements {
        add_statement(found, within, statement)?;
    }
    Ok(())
}

// Adds the traversals in a statement behind its label.
#[cycle(traversals)]
#[tactic(auto, using(crate::proofs::Joined::joined))]
fn add_core(found: &mut Vec<Traversed>, within: bool, core: &CoreNode) -> Result<(), NoMemory>
    ensures { OnOk result (found.new.items ≡ found.old.items ++ all_in_core within (view_core core.now)) }
{
    match core {
        CoreNode::Do { .. } | CoreNode::Bind(_) => Ok(()),
        CoreNode::Handle { name, .. } => {
            found.push(Traversed {
                handle: name.id,
                within,
            })?;
            Ok(())
        }
        CoreNode::Sequence { statements, .. } => {
            add_statements(found, within, statements.as_slice())
        }
        CoreNode::Together { statements, .. } => {
            add_statements(found, within, statements.as_slice())
        }
        CoreNode::Select { first, rest, .. } => {
            add_branch(found, first)?;
            add_branches(found, rest.as_slice())
        }
        CoreNode::Repeat { statement, .. } => add_statement(found, true, statement),
        CoreNode::If { then, .. } => add_statement(found, true, then),
        CoreNode::IfElse {
            then,
            otherwise,
            ..
        } => {
            add_statement(found, true, then)?;
            add_statement(found, true, otherwise)
        }
        CoreNode::Match { first, rest, .. } => {
            add_arm(found, first)?;
            add_arms(found, rest.as_slice())
        }
    }
}

// Adds the traversals in a branch.
#[cycle(traversals)]
#[tactic(auto, using(crate::proofs::Joined::joined))]
fn add_branch(found: &mut Vec<Traversed>, branch: &BranchNode) -> Result<(), NoMemory>
    ensures { OnOk result (found.new.items ≡ found.old.items ++ all_in_branch (view_branch branch.now)) }
{
    add_statement(found, true, &branch.statement)
}

// Adds the traversals in branches one after another.
#[cycle(traversals)]
#[tactic(auto, using(crate::proofs::Joined::joined))]
fn add_branches(found: &mut Vec<Traversed>, branches: &[BranchNode]) -> Result<(), NoMemory>
    ensures { OnOk result (found.new.items ≡ found.old.items ++ flat_map all_in_branch (map view_branch branches.now)) }
{
    for branch in branches {
        add_branch(found, branch)?;
    }
    Ok(())
}

// Adds the traversals in an arm.
#[cycle(traversals)]
#[tactic(auto, using(crate::proofs::Joined::joined))]
fn add_arm(found: &mut Vec<Traversed>, arm: &ArmNode) -> Result<(), NoMemory>
    ensures { OnOk result (found.new.items ≡ found.old.items ++ all_in_arm (view_arm arm.now)) }
{
    add_statement(found, true, &arm.statement)
}

// Adds the traversals in arms one after another.
#[cycle(traversals)]
#[tactic(auto, using(crate::proofs::Joined::joined))]
fn add_arms(found: &mut Vec<Traversed>, arms: &[ArmNode]) -> Result<(), NoMemory>
    ensures { OnOk result (found.new.items ≡ found.old.items ++ flat_map all_in_arm (map view_arm arms.now)) }
{
    for arm in arms {
        add_arm(found, arm)?;
    }
    Ok(())
}

/// The traversals of handles in statements, in the order of their text.
pub fn list_traversals(
    alloc: Global,
    statements: &[StatementNode],
) -> Result<Vec<Traversed>, NoMemory>
    ensures { IfOk result (λ all. all.items ≡ flat_map (all_in_statement false) (map view_statement statements.now)) }
{
    let mut found = Vec::new(alloc);
    add_statements(&mut found, false, statements)?;
    Ok(found)
}
