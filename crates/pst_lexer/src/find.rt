//! The part that begins a text.
ghost use Rattle.std.specs.Prelude.{◌≡◌, ◌≤◌, ◌<◌, length, take, IsTrue};
ghost use Rattle.pst_token.specs.Lexemes.{is_word_byte};
ghost use Rattle.pst_token.specs.Parts.{is_blank};

use crate::comments::{block_comment, line_comment};
use crate::marks::mark;
use crate::words::word;
use pst_token::Kind;

// What begins a text that may go on.
#[derive(Clone, Copy, Debug, PartialEq, Eq)]
pub(crate) enum Found {
    // It depends on what follows. The bytes up to `seen` need not be looked at again.
    Open { seen: usize },
    // No part begins, whatever follows.
    Nothing,
    // A blank or a comment of `len` bytes.
    Gap { len: usize },
    // A reserved word or a mark.
    Fixed { kind: Kind, len: usize },
    // A name.
    Name { len: usize },
    // A number.
    Number { value: i64, len: usize },
    // A number above 2^63-1.
    Wide,
}

ghost use Rattle.pst_lexer.specs.Finding.{Tells, is_open};

// What begins the text, of which the bytes up to `seen` have been looked at. `is_last` tells that
// nothing follows the text.
pub(crate) fn find(text: &[u8], seen: usize, is_last: bool) -> Found
    requires some { 0 < length text.now }
    requires within { seen ≤ length text.now }
    requires seen { IsTrue (is_open (take seen text.now)) }
    ensures { Tells text.now is_last result }
{
    let first = text[0];
    if is_blank(first) {
        Found::Gap { len: 1 }
    } else if is_word_byte(first) {
        word(text, seen, is_last)
    } else if text.len() == 1 && !is_last {
        Found::Open { seen: 0 }
    } else if text.starts_with(b"//") {
        line_comment(text, seen, is_last)
    } else if text.starts_with(b"/*") {
        block_comment(text, seen, is_last)
    } else {
        mark(text, is_last)
    }
}

fn is_blank(byte: u8) -> bool
    ensures { result ≡ is_blank byte }
{
    matches!(byte, b' ' | b'\t' | b'\r' | b'\n')
}

pub(crate) fn is_word_byte(byte: u8) -> bool
    ensures { result ≡ is_word_byte byte }
{
    byte.is_ascii_alphanumeric() || byte == b'_'
}
