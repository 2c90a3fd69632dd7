//! A mark that may be left out.
ghost use Rattle.pst_parse_expr.specs.Constraints.{is_at};
ghost use Rattle.pst_parse_part.specs.Choices.{optional};
ghost use Rattle.pst_parse_part.specs.Families.{view_itself, mark_family};
ghost use Rattle.pst_reading.specs.Reads.{Reads};
ghost use Rattle.pst_token.specs.declared.kind.Kind.TheVariants as kind;
ghost use Rattle.std.specs.Prelude.{◌≤◌, ◌-◌, length};

use pst_ast::SyntaxFault;
use pst_base::Place;
use pst_reading::{expect, is};
use pst_token::{Kind, Token};

/// The place of a mark that may be left out.
pub fn maybe_mark(
    tokens: &[Token],
    at: usize,
    wanted: Kind,
    depth: u32,
) -> Result<(Option<Place>, usize), SyntaxFault>
    requires inside { at ≤ length tokens.now }
    ensures { Reads view_itself (optional (is_at wanted) (mark_family wanted depth)) tokens.now at at 0 result }
{
    if !is(tokens, at, wanted) {
        return Ok((None, at));
    }
    let place = expect(tokens, at, wanted, depth, 0)?;
    Ok((Some(place), at + 1))
}
