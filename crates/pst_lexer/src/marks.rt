//! Marks at the front of a text.
ghost use Rattle.std.specs.Prelude.{◌≡◌, ◌≤◌, ◌<◌, ◌⊎◌, false, length, slice_index, take, Some, None, MatchOption, IsTrue};
ghost use Rattle.pst_token.specs.Lookup.{kind_of};
ghost use Rattle.pst_token.specs.Lexemes.{is_word_byte};
ghost use Rattle.pst_token.specs.Parts.{is_blank, begins_comment};
ghost use Rattle.pst_lexer.specs.Finding.{Tells};

use crate::find::Found;
use pst_token::{Kind, kind_of};

// The mark that begins the text: one of two bytes goes before one of a single byte.
pub(crate) fn mark(text: &[u8], is_last: bool) -> Found
    requires some { 0 < length text.now }
    requires two { (2 ≤ length text.now) ⊎ IsTrue is_last }
    requires no_word { is_word_byte (slice_index text.now 0) ≡ false }
    requires no_blank { is_blank (slice_index text.now 0) ≡ false }
    requires no_comment { begins_comment text.now ≡ false }
    ensures { Tells text.now is_last result }
{
    if let Some(kind) = two_byte_mark(text) {
        return Found::Fixed { kind, len: 2 };
    }
    match kind_of(&text[..1]) {
        Some(kind) => Found::Fixed { kind, len: 1 },
        None => Found::Nothing,
    }
}

fn two_byte_mark(text: &[u8]) -> Option<Kind>
    ensures { MatchOption result ((length text.now < 2) ⊎ (kind_of (take 2 text.now) ≡ None)) (λ kind. (2 ≤ length text.now) × (kind_of (take 2 text.now) ≡ Some kind)) }
{
    if text.len() < 2 {
        None
    } else {
        kind_of(&text[..2])
    }
}
