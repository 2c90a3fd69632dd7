//! The rules that other parsers stand on.
ghost use Rattle.std.specs.Prelude.{◌≤◌, ◌<◌, length};
ghost use Rattle.pst_ast.specs.Answers.{AnswersConstraint, AnswersExpr};
ghost use Rattle.pst_reading.specs.Ended.{IsEnded};

use crate::constraint::set;
use pst_ast::{ConstraintNode, ExprNode, SyntaxFault};
use pst_parse_operator::expression::{LEVELS, level};
use pst_token::Token;
use std::alloc::Global;

/// The longest expression at a place, with `depth` derivations that count open round it, and the
/// place behind it.
#[tactic(auto, using(crate::proofs::Answering::tree_answers, crate::proofs::Answering::fault_answers))]
pub fn parse_expr(
    alloc: Global,
    tokens: &[Token],
    at: usize,
    depth: u32,
) -> Result<(ExprNode, usize), SyntaxFault>
    requires ended { IsEnded tokens.now }
    requires inside { at < length tokens.now }
    requires nesting { depth ≤ 64 }
    ensures { AnswersExpr tokens.now at depth result }
{
    let (expr, after, _operators) = level(alloc, tokens, at, depth, 0, LEVELS)?;
    Ok((expr, after))
}

/// The longest set of constraints at a place, one or several in braces, with `depth` derivations
/// that count open round it, and the place behind it.
#[tactic(auto, using(crate::proofs::ConstraintAnswering::constraint_answers))]
pub fn parse_constraint(
    alloc: Global,
    tokens: &[Token],
    at: usize,
    depth: u32,
) -> Result<(ConstraintNode, usize), SyntaxFault>
    requires ended { IsEnded tokens.now }
    requires inside { at < length tokens.now }
    requires nesting { depth ≤ 64 }
    ensures { AnswersConstraint tokens.now at depth result }
{
    set(alloc, tokens, at, depth)
}
