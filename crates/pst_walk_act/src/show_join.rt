//! The uses in join forms of blocks.
ghost use Rattle.std.specs.Prelude.{◌≡◌, ◌∷◌, OnOk};
ghost use Rattle.std.specs.List.{fold};
ghost use Rattle.std.specs.Option.{option_map};
ghost use Rattle.pst_ast.specs.ActivityView.{view_join};
ghost use Rattle.pst_ast.specs.Uses.{Branches, branch_places, branches_in, join_uses, labels_in, option_uses};
ghost use Rattle.pst_walk_parts.specs.Shown.{view_statements};

use pst_ast::{Environment, JoinNode, StatementNode};
use pst_base::NoMemory;
use pst_walk_parts::Visitor;
use pst_walk_parts::show_expression::show_expr;

// Shows the join form of a block with these statements, where it has one.
#[tactic(auto, using(crate::proofs::Folds::fold_append))]
pub fn show_optional_join<V: Visitor>(
    visitor: &mut V,
    at: &Environment,
    statements: &[StatementNode],
    join: &Option<JoinNode>,
) -> Result<(), NoMemory>
    ensures { OnOk result (visitor.new ≡ fold V.step visitor.old (option_uses (λ j. Branches (branch_places (view_statements statements.now)) ∷ join_uses at.now (labels_in (view_statements statements.now)) (branches_in (view_statements statements.now)) j) (option_map view_join join.now))) }
{
    match join {
        None => Ok(()),
        Some(join) => {
            visitor.branches(statements)?;
            show_join(visitor, at, statements, join)
        }
    }
}

// Shows what a join form names or counts.
#[tactic(auto, using(crate::proofs::Folds::fold_append))]
fn show_join<V: Visitor>(
    visitor: &mut V,
    at: &Environment,
    statements: &[StatementNode],
    join: &JoinNode,
) -> Result<(), NoMemory>
    ensures { OnOk result (visitor.new ≡ fold V.step visitor.old (join_uses at.now (labels_in (view_statements statements.now)) (branches_in (view_statements statements.now)) (view_join join.now))) }
{
    match join {
        JoinNode::Branch { names, .. } => visitor.joins(statements, names),
        JoinNode::Nothing(_) => Ok(()),
        JoinNode::Select { count, .. } => {
            visitor.judges_count(at, statements, count)?;
            show_expr(visitor, at, count)
        }
    }
}
