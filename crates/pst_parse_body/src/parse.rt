//! The rules that other parsers stand on.
ghost use Rattle.std.specs.Prelude.{◌≤◌, ◌<◌, length};
ghost use Rattle.pst_ast.specs.Answers.{AnswersBody};
ghost use Rattle.pst_reading.specs.Ended.{IsEnded};

use crate::body::read_body;
use pst_ast::{BodyNode, SyntaxFault};
use pst_token::Token;
use std::alloc::Global;

/// The body of an action at a place, with `depth` derivations that count open round it, and the
/// place behind it.
#[tactic(auto, using(crate::proofs::BodyAnswering::body_answers))]
pub fn parse_body(
    alloc: Global,
    tokens: &[Token],
    at: usize,
    depth: u32,
) -> Result<(BodyNode, usize), SyntaxFault>
    requires ended { IsEnded tokens.now }
    requires inside { at < length tokens.now }
    requires nesting { depth ≤ 64 }
    ensures { AnswersBody tokens.now at depth result }
{
    read_body(alloc, tokens, at, depth)
}
