//! The rule that other parsers stand on.
ghost use Rattle.pst_ast.specs.Answers.{AnswersItem};
ghost use Rattle.pst_reading.specs.Ended.{IsEnded};
ghost use Rattle.std.specs.Prelude.{◌<◌, length};

use crate::components::item;
use pst_ast::{Item, SyntaxFault};
use pst_token::Token;
use std::alloc::Global;

/// The part of a unit at a place before its end, and the place behind it. An unexpected token, or
/// one that breaks a limit, is answered by its place: `At` where no part of a unit goes on with the
/// token, `Deep` where it is the first that breaks a limit; `NoMemory` where memory runs out.
#[tactic(auto, using(crate::proofs::Items::item_is_answered))]
pub fn parse_item(alloc: Global, tokens: &[Token], at: usize) -> Result<(Item, usize), SyntaxFault>
    requires ended { IsEnded tokens.now }
    requires inside { at < length tokens.now }
    ensures { AnswersItem tokens.now at result }
{
    item(alloc, tokens, at)
}
