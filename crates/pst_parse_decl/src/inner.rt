//! Activities and bodies, as parts of an action.
ghost use Rattle.pst_ast.specs.ActivityView.{view_activity};
ghost use Rattle.pst_ast.specs.BodyView.{view_body};
ghost use Rattle.pst_parse_decl.specs.Inner.{activity_parser_family, body_parser_family};
ghost use Rattle.pst_reading.specs.Reads.{Reads};
ghost use Rattle.std.specs.Prelude.{◌≤◌, length};

use pst_ast::{ActivityNode, BodyNode, SyntaxFault};
use pst_parse_act::read_activity;
use pst_parse_body::read_body;
use pst_token::Token;
use std::alloc::Global;

/// An activity.
#[tactic(auto, using(crate::proofs::InnerParts::activity_reads))]
pub fn activity(
    alloc: Global,
    tokens: &[Token],
    at: usize,
    depth: u32,
) -> Result<(ActivityNode, usize), SyntaxFault>
    requires inside { at ≤ length tokens.now }
    ensures { Reads view_activity (activity_parser_family depth) tokens.now at at 1 result }
{
    read_activity(alloc, tokens, at, depth)
}

/// A body.
#[tactic(auto, using(crate::proofs::InnerParts::body_reads))]
pub fn body(
    alloc: Global,
    tokens: &[Token],
    at: usize,
    depth: u32,
) -> Result<(BodyNode, usize), SyntaxFault>
    requires inside { at ≤ length tokens.now }
    requires nesting { depth ≤ 64 }
    ensures { Reads view_body (body_parser_family depth) tokens.now at at 1 result }
{
    read_body(alloc, tokens, at, depth)
}
