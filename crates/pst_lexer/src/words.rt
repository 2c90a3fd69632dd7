//! Names, reserved words and numbers at the front of a text.
ghost use Rattle.std.specs.Prelude.{◌≡◌, ◌^◌, ◌<◌, ◌≤◌, ◌↔◌, not, true, pos, [], length, take, drop, slice_index, MatchOption, IsTrue};
ghost use Rattle.std.specs.Char.{is_ascii_digit, is_ascii_hexdigit};
ghost use Rattle.std.specs.List.{list_all};
ghost use Rattle.std.specs.Str.Parse.{digits_value, IsNumeral};
ghost use Rattle.pst_token.specs.Lexemes.{is_word_byte, is_decimal, is_hexadecimal};
ghost use Rattle.pst_token.specs.Parts.{GoesOnWith};
ghost use Rattle.pst_lexer.specs.Finding.{Tells, TellsWord, TellsNumber};

use crate::find::{Found, is_word_byte};
use pst_token::kind_of;
use std::str;

// What the letters, digits and `_` at the front of the text are.
pub(crate) fn word(text: &[u8], seen: usize, is_last: bool) -> Found
    requires begins { IsTrue (is_word_byte (slice_index text.now 0)) }
    requires within { seen ≤ length text.now }
    requires seen { IsTrue (list_all is_word_byte (take seen text.now)) }
    ensures { Tells text.now is_last result }
{
    let len = word_end(text, seen);
    if len == text.len() && !is_last {
        Found::Open { seen: len }
    } else {
        sort_of(&text[..len])
    }
}

// The first byte from `from` on that is no letter, digit or `_`, or the end.
fn word_end(text: &[u8], from: usize) -> usize
    requires within { from ≤ length text.now }
    requires before { IsTrue (list_all is_word_byte (take from text.now)) }
    ensures within { result ≤ length text.now }
    ensures all { IsTrue (list_all is_word_byte (take result text.now)) }
    ensures ends { GoesOnWith (λ b. not (is_word_byte b)) (drop result text.now) }
{
    for at in from..text.len() {
        if !is_word_byte(text[at]) {
            return at;
        }
    }
    text.len()
}

// What letters, digits and `_` spell that neither follow nor precede another one.
fn sort_of(word: &[u8]) -> Found
    requires some { 0 < length word.now }
    requires all { IsTrue (list_all is_word_byte word.now) }
    ensures { TellsWord word.now result }
{
    if word[0].is_ascii_digit() {
        return number(word);
    }
    let len = word.len();
    match kind_of(word) {
        Some(kind) => Found::Fixed { kind, len },
        None => Found::Name { len },
    }
}

// What begins with a digit is a number, or nothing.
fn number(word: &[u8]) -> Found
    requires some { 0 < length word.now }
    requires all { IsTrue (list_all is_word_byte word.now) }
    ensures { TellsNumber word.now result }
{
    let len = word.len();
    if is_hexadecimal(word) {
        number_found(value_of(&word[2..], 16), len)
    } else if is_decimal(word) {
        number_found(value_of(word, 10), len)
    } else {
        Found::Nothing
    }
}

fn number_found(value: Option<i64>, len: usize) -> Found
    ensures { MatchOption value (result ≡ Found.Wide) (λ v. result ≡ Found.Number v len) }
{
    match value {
        Some(value) => Found::Number { value, len },
        None => Found::Wide,
    }
}

// `0x` and hexadecimal digits.
fn is_hexadecimal(word: &[u8]) -> bool
    ensures { result ≡ is_hexadecimal word.now }
{
    word.len() > 2 && word[0] == b'0' && word[1] == b'x' && are_hexadecimal(&word[2..])
}

// Decimal digits that don't begin with 0, or `0` alone.
fn is_decimal(word: &[u8]) -> bool
    requires { 0 < length word.now }
    ensures { result ≡ is_decimal word.now }
{
    are_decimal(word) && (word.len() == 1 || word[0] != b'0')
}

fn are_decimal(bytes: &[u8]) -> bool
    ensures { result ≡ list_all is_ascii_digit bytes.now }
{
    bytes.iter().all(|b| b.is_ascii_digit())
}

fn are_hexadecimal(bytes: &[u8]) -> bool
    ensures { result ≡ list_all is_ascii_hexdigit bytes.now }
{
    bytes.iter().all(|b| b.is_ascii_hexdigit())
}

// The value of the digits, where it is at most 2^63-1.
fn value_of(digits: &[u8], radix: u32) -> Option<i64>
    requires low { 2 ≤ radix }
    requires high { radix ≤ 36 }
    requires numeral { IsNumeral radix digits.now }
    requires ascii { IsTrue (list_all is_word_byte digits.now) }
    ensures { MatchOption result (2 ^ 63 ≤ digits_value radix digits.now) (λ v. (v ≡ pos (digits_value radix digits.now)) × (digits_value radix digits.now < 2 ^ 63)) }
{
    i64::from_str_radix(ascii(digits), radix).ok()
}

// The text of letters, digits and `_`.
pub(crate) fn ascii(word: &[u8]) -> &str
    requires { IsTrue (list_all is_word_byte word.now) }
    ensures { result.now ≡ word.now }
{
    match str::from_utf8(word) {
        Ok(text) => text,
        Err(_) => unreachable!(),
    }
}
