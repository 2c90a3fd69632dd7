//! The labels of the branches of blocks.
ghost use Rattle.std.specs.Prelude.{◌≡◌, IfOk, map};
ghost use Rattle.pst_ast.specs.ActivityView.{view_core, view_statement};
ghost use Rattle.pst_ast.specs.Uses as tree;
ghost use Rattle.pst_step_parts.specs.Joined;
ghost use Rattle.pst_step_parts.specs.Joined.{labels_of};

use pst_ast::{CoreNode, StatementNode};
use pst_base::{NameId, NoMemory};
use std::alloc::Global;

// Whether a statement behind its label is a bind.
fn is_bind(core: &CoreNode) -> bool
    ensures { result ≡ Joined.is_bind (view_core core.now) }
{
    match core {
        CoreNode::Do { .. } => false,
        CoreNode::Handle { .. } => false,
        CoreNode::Sequence { .. } => false,
        CoreNode::Together { .. } => false,
        CoreNode::Select { .. } => false,
        CoreNode::Repeat { .. } => false,
        CoreNode::If { .. } => false,
        CoreNode::IfElse { .. } => false,
        CoreNode::Match { .. } => false,
        CoreNode::Bind(_) => true,
    }
}

// Whether a statement is a branch: `;` and binds are none.
#[tactic(auto, using(crate::proofs::Branching::labeled_branch_is, crate::proofs::Branching::plain_branch_is))]
fn is_branch(statement: &StatementNode) -> bool
    ensures { result ≡ tree.is_branch (view_statement statement.now) }
{
    match statement {
        StatementNode::Empty(_) => false,
        StatementNode::Labeled { core, .. } => !is_bind(core),
        StatementNode::Plain(core) => !is_bind(core),
    }
}

// The label of a statement that isn't a bind, where it has one.
#[tactic(auto, using(crate::proofs::Branching::label_is))]
fn label_of(statement: &StatementNode) -> Option<NameId>
    ensures { result ≡ tree.label_of (view_statement statement.now) }
{
    match statement {
        StatementNode::Empty(_) => None,
        StatementNode::Labeled { label, core } => {
            if is_bind(core) {
                None
            } else {
                Some(label.name.id)
            }
        }
        StatementNode::Plain(_) => None,
    }
}

/// The branches of a block, each with its label if it has one.
pub fn branch_labels(
    alloc: Global,
    statements: &[StatementNode],
) -> Result<Vec<Option<NameId>>, NoMemory>
    ensures { IfOk result (λ labels. labels.items ≡ labels_of (map view_statement statements.now)) }
{
    let mut labels = Vec::new(alloc);
    for statement in statements {
        if is_branch(statement) {
            labels.push(label_of(statement))?;
        }
    }
    Ok(labels)
}
