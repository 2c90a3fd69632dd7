//! How often something is repeated.
ghost use Rattle.std.specs.Prelude.{◌≤◌, length};
ghost use Rattle.pst_reading.specs.Reads.{Reads};
ghost use Rattle.pst_parse_part.specs.TimesFamilies.{counted_family, label_family, times_family, view_times};

use pst_ast::{ExprNode, LabelNode, SyntaxFault};
use pst_base::Place;
use pst_parse_expr::outermost;
use pst_reading::{expect, expect_name, name_then};
use pst_token::{Kind, Token};
use std::alloc::Global;

// A count in brackets, with the name of an index or without.
#[derive(Drop)]
pub struct Times {
    // `(`
    pub left_parenthesis: Place,
    // The index's name.
    pub index: Option<LabelNode>,
    // The count.
    pub count: ExprNode,
    // `)`
    pub right_parenthesis: Place,
}

// A name and a colon.
pub fn label(tokens: &[Token], at: usize, depth: u32) -> Result<(LabelNode, usize), SyntaxFault>
    requires inside { at ≤ length tokens.now }
    ensures { Reads (λ label. label) (label_family depth) tokens.now at at 2 result }
{
    let name = expect_name(tokens, at, depth, 0)?;
    let colon = expect(tokens, at + 1, Kind::Colon, depth, 0)?;
    Ok((LabelNode { name, colon }, at + 2))
}

// A count behind an index, where there is one, and the bracket behind it.
fn counted(
    alloc: Global,
    tokens: &[Token],
    at: usize,
    depth: u32,
    left_parenthesis: Place,
    index: Option<LabelNode>,
) -> Result<(Times, usize), SyntaxFault>
    requires inside { at ≤ length tokens.now }
    requires nesting { depth ≤ 64 }
    ensures { Reads view_times (counted_family depth left_parenthesis index) tokens.now at at 1 result }
{
    let (count, after) = outermost(alloc, tokens, at, depth)?;
    let right_parenthesis = expect(tokens, after, Kind::RightParenthesis, depth, 0)?;
    let times = Times {
        left_parenthesis,
        index,
        count,
        right_parenthesis,
    };
    Ok((times, after + 1))
}

// A count in brackets.
pub fn read_times(
    alloc: Global,
    tokens: &[Token],
    at: usize,
    depth: u32,
) -> Result<(Times, usize), SyntaxFault>
    requires inside { at ≤ length tokens.now }
    ensures { Reads view_times (times_family depth) tokens.now at at 1 result }
{
    let left_parenthesis = expect(tokens, at, Kind::LeftParenthesis, depth, 0)?;
    if !name_then(tokens, at + 1, Kind::Colon) {
        return counted(alloc, tokens, at + 1, depth, left_parenthesis, None);
    }
    let (label, behind) = label(tokens, at + 1, depth)?;
    counted(alloc, tokens, behind, depth, left_parenthesis, Some(label))
}
