//! The words of activities, and statements that are one token. A parser stands at a place, and `depth`
//! derivations that count are open at the tokens of its part; it answers the part and the place
//! behind it.
ghost use Rattle.std.specs.Prelude.{◌≡◌, ◌≤◌, length};
ghost use Rattle.pst_ast.specs.ActivityView.{view_statement};
ghost use Rattle.pst_ast.specs.ActivityProper.{statement_ends_open};
ghost use Rattle.pst_ast.specs.Marks.{together_word_kind};
ghost use Rattle.pst_reading.specs.Reads.{Reads, ReadsOpen};
ghost use Rattle.pst_parse_statement.specs.ActivityFamilies.{sequence_word_family, maybe_sequence_word_family, empty_family};

use pst_ast::{StatementNode, SyntaxFault, TogetherWord};
use pst_base::Place;
use pst_reading::{expect, is};
use pst_token::{Kind, Token};

/// The word `sequence`.
pub fn sequence_word(tokens: &[Token], at: usize, depth: u32) -> Result<(Place, usize), SyntaxFault>
    requires inside { at ≤ length tokens.now }
    ensures { Reads (λ place. place) (sequence_word_family depth) tokens.now at at 1 result }
{
    let place = expect(tokens, at, Kind::Sequence, depth, 0)?;
    Ok((place, at + 1))
}

/// The word `sequence`, where it stands.
pub fn maybe_sequence_word(
    tokens: &[Token],
    at: usize,
    depth: u32,
) -> Result<(Option<Place>, usize), SyntaxFault>
    requires inside { at ≤ length tokens.now }
    ensures { Reads (λ place. place) (maybe_sequence_word_family depth) tokens.now at at 0 result }
{
    if !is(tokens, at, Kind::Sequence) {
        return Ok((None, at));
    }
    let (word, after) = sequence_word(tokens, at, depth)?;
    Ok((Some(word), after))
}

/// The reserved word of a block whose statements run side by side or in any order.
pub fn word_kind(word: TogetherWord) -> Kind
    ensures { result ≡ together_word_kind word }
{
    match word {
        TogetherWord::Parallel => Kind::Parallel,
        TogetherWord::Schedule => Kind::Schedule,
    }
}

/// A statement that does nothing.
pub fn empty(tokens: &[Token], at: usize, depth: u32) -> Result<(StatementNode, usize), SyntaxFault>
    requires inside { at ≤ length tokens.now }
    ensures { ReadsOpen view_statement statement_ends_open (empty_family depth) tokens.now at at result }
{
    let semicolon = expect(tokens, at, Kind::Semicolon, depth, 0)?;
    Ok((StatementNode::Empty(semicolon), at + 1))
}
