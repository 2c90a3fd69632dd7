//! The rule that other parsers stand on.
ghost use Rattle.std.specs.Prelude.{◌≤◌, ◌<◌, length};
ghost use Rattle.pst_ast.specs.ActivityView.{view_activity};
ghost use Rattle.pst_ast.specs.Answers.{AnswersActivity};
ghost use Rattle.pst_reading.specs.Ended.{IsEnded};
ghost use Rattle.pst_reading.specs.Reads.{Reads};
ghost use Rattle.pst_parse_statement.specs.ActivityFamilies.{activity_family};

use crate::activity::statements;
use pst_ast::{ActivityNode, SyntaxFault};
use pst_parse_statement::keeping::closed;
use pst_reading::expect;
use pst_token::{Kind, Token};
use std::alloc::Global;

/// An activity, by its parser: what `parse_activity` answers, wherever the tokens end. A rule with an
/// activity among its parts reads it so.
pub fn read_activity(
    alloc: Global,
    tokens: &[Token],
    at: usize,
    depth: u32,
) -> Result<(ActivityNode, usize), SyntaxFault>
    requires inside { at ≤ length tokens.now }
    ensures { Reads view_activity (activity_family depth) tokens.now at at 1 result }
{
    let activity = expect(tokens, at, Kind::Activity, depth, 0)?;
    let left_brace = expect(tokens, at + 1, Kind::LeftBrace, depth, 0)?;
    let (listed, after) = statements(alloc, tokens, at + 2, depth)?;
    let closing = expect(tokens, after, Kind::RightBrace, depth, 0);
    let (statements, right_brace) = closed(listed, closing)?;
    let node = ActivityNode {
        activity,
        left_brace,
        statements,
        right_brace,
    };
    Ok((node, after + 1))
}

/// The activity at a place, with `depth` derivations that count open round it, and the place behind
/// it. An unexpected token, or one that breaks a limit, is answered by its place: `At` where no
/// activity goes on with the token, `Deep` where it is the first that breaks a limit; `NoMemory`
/// where memory runs out.
#[tactic(auto, using(crate::proofs::ActivityAnswering::activity_answers))]
pub fn parse_activity(
    alloc: Global,
    tokens: &[Token],
    at: usize,
    depth: u32,
) -> Result<(ActivityNode, usize), SyntaxFault>
    requires ended { IsEnded tokens.now }
    requires inside { at < length tokens.now }
    requires nesting { depth ≤ 64 }
    ensures { AnswersActivity tokens.now at depth result }
{
    read_activity(alloc, tokens, at, depth)
}
