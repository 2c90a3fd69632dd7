//! Counts of items and of branches.
ghost use Rattle.std.specs.Prelude.{◌≡◌, ◌∷◌, map};
ghost use Rattle.pst_ast.specs.ActivityView.{view_statement};
ghost use Rattle.pst_ast.specs.ExpressionView.{view_expr};
ghost use Rattle.pst_ast.specs.SharedView.{view_next_expr};
ghost use Rattle.pst_ast.specs.Uses.{branch_places, branches_in, is_branch as is_one, next_expr, statement_place as the_place};
ghost use Rattle.pst_walk_parts.specs.Shown.{view_statements};
ghost use Rattle.pst_use_rules.specs.Found;

use crate::expression::expr_place;
use pst_ast::{CoreNode, ExprNode, Finding, NextExpr, StatementNode};
use pst_base::Place;
use pst_walk_act::show_traversal::core_place;

// The first place of too many.
fn too_many(place: Place) -> Finding
    ensures { result ≡ Found.too_many place }
{
    Finding { place, rule: 12 }
}

/// Rule 12 at the 65th item of a `unique`.
#[tactic(auto, using(crate::proofs::Uniques::unique_by))]
pub fn unique_finding(first: &ExprNode, rest: &[NextExpr]) -> Option<Finding>
    ensures { result ≡ Found.unique_found (view_expr first.now ∷ map next_expr (map view_next_expr rest.now)) }
{
    match rest.get(63) {
        None => None,
        Some(next) => Some(too_many(expr_place(&next.expr))),
    }
}

// The place of the first token of a statement.
fn statement_place(statement: &StatementNode) -> Place
    ensures { result ≡ the_place (view_statement statement.now) }
{
    match statement {
        StatementNode::Empty(place) => *place,
        StatementNode::Labeled { label, .. } => label.name.place,
        StatementNode::Plain(core) => core_place(core),
    }
}

// Whether a statement is a branch.
fn is_branch(statement: &StatementNode) -> bool
    ensures { result ≡ is_one (view_statement statement.now) }
{
    match statement {
        StatementNode::Empty(_) => false,
        StatementNode::Labeled { core, .. } => !matches!(core, CoreNode::Bind(_)),
        StatementNode::Plain(core) => !matches!(core, CoreNode::Bind(_)),
    }
}

/// How many branches a block with these statements has.
pub fn count_of_branches(statements: &[StatementNode]) -> u64
    ensures { result ≡ branches_in (view_statements statements.now) }
{
    let mut count = 0;
    for statement in statements {
        if is_branch(statement) {
            count += 1;
        }
    }
    count
}

/// Rule 12 at the 65th branch of a block with a join form, which has these statements.
pub fn branches_finding(statements: &[StatementNode]) -> Option<Finding>
    ensures { result ≡ Found.branches_found (branch_places (view_statements statements.now)) }
{
    let mut left: usize = 64;
    for statement in statements {
        if is_branch(statement) {
            if left == 0 {
                return Some(too_many(statement_place(statement)));
            }
            left -= 1;
        }
    }
    None
}
