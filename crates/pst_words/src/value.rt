//! The values of keys.
ghost use Rattle.std.specs.Prelude.{◌≡◌, ◌^◌, ◌<◌, ◌≤◌, ◌++◌, ℕ, List, true, decimal, codes, length, MatchOption, MatchBool};
ghost use Rattle.std.specs.Char.{is_ascii_digit};
ghost use Rattle.std.specs.List.{list_all, take_while};
ghost use Rattle.pst_words.specs.Table.{IsNumber, IsSize, IsRoot, IsValue, most_of};
ghost use Rattle.pst_words.specs.Numerals.{IsPlain, value_behind};
ghost use Rattle.pst_token.specs.Lexemes.{is_name_start, is_word_byte, is_word, IsName};

use crate::key::Key;
use pst_token::kind_of;

/// Whether each byte is a decimal digit.
fn are_digits(text: &[u8]) -> bool
    ensures { result ≡ list_all is_ascii_digit text.now }
{
    text.iter().all(|b| b.is_ascii_digit())
}

/// Whether the text is digits, without a leading zero unless it is `0` itself.
fn is_plain(text: &[u8]) -> bool
    ensures { MatchBool result (IsPlain text.now) (IsPlain text.now → ⊥) }
{
    if text.is_empty() {
        return false;
    }
    if text[0] == b'0' && text.len() > 1 {
        return false;
    }
    are_digits(text)
}

/// The number that the digits spell behind another one, if it is below 2^64.
fn value_of(text: &[u8]) -> Option<u64>
    requires { list_all is_ascii_digit text.now ≡ true }
    ensures { MatchOption result (2 ^ 64 ≤ value_behind 0 text.now) (λ n. (n ≡ value_behind 0 text.now) × (n < 2 ^ 64)) }
{
    let mut number: u64 = 0;
    for i in 0..text.len() {
        let Some(tens) = number.checked_mul(10) else {
            return None;
        };
        let Some(sum) = tens.checked_add(u64::from(text[i] - b'0')) else {
            return None;
        };
        number = sum;
    }
    Some(number)
}

/// The number below 2^64 whose decimal spelling the text is.
pub fn number_in(text: &[u8]) -> Option<u64>
    ensures { MatchOption result ((n : ℕ) → n < 2 ^ 64 → text.now ≡ decimal n → ⊥) (λ n. (text.now ≡ decimal n) × (n < 2 ^ 64)) }
{
    if is_plain(text) { value_of(text) } else { None }
}

/// Whether the text is the decimal spelling of a number from the least to the most.
fn is_number(text: &[u8], least: u64, most: u64) -> bool
    ensures { MatchBool result (IsNumber least most text.now) (IsNumber least most text.now → ⊥) }
{
    let Some(n) = number_in(text) else {
        return false;
    };
    if n < least {
        return false;
    }
    if most < n {
        return false;
    }
    true
}

/// Whether the text is the decimal spelling of a multiple of 8 from 8 to 4,096.
fn is_size(text: &[u8]) -> bool
    ensures { MatchBool result (IsSize text.now) (IsSize text.now → ⊥) }
{
    let Some(n) = number_in(text) else {
        return false;
    };
    if n < 8 {
        return false;
    }
    if 4096 < n {
        return false;
    }
    n % 8 == 0
}

/// Whether the byte is an ASCII letter or `_`.
fn is_name_start(byte: u8) -> bool
    ensures { result ≡ is_name_start byte }
{
    byte.is_ascii_alphabetic() || byte == b'_'
}

/// Whether each byte is a letter, a digit or `_`.
fn are_word_bytes(word: &[u8]) -> bool
    ensures { result ≡ list_all is_word_byte word.now }
{
    word.iter().all(|b| b.is_ascii_alphanumeric() || *b == b'_')
}

/// Whether the word is a letter or `_`, and then letters, digits and `_`.
fn is_word(word: &[u8]) -> bool
    ensures { result ≡ is_word word.now }
{
    match word.split_first() {
        Some((first, more)) => is_name_start(*first) && are_word_bytes(more),
        None => false,
    }
}

/// Whether the word is a name of the language.
fn is_name(word: &[u8]) -> bool
    ensures { MatchBool result (IsName word.now) (IsName word.now → ⊥) }
{
    is_word(word) && kind_of(word).is_none()
}

/// Whether the byte is a letter, a digit or `_`.
fn is_word_char(byte: u8) -> bool
    ensures { result ≡ is_word_byte byte }
{
    byte.is_ascii_alphanumeric() || byte == b'_'
}

/// How many letters, digits and `_` stand in front.
fn word_length(text: &[u8]) -> usize
    ensures value { result ≡ length (take_while is_word_byte text.now) }
    ensures inside { result ≤ length text.now }
{
    for i in 0..text.len() {
        if !is_word_char(text[i]) {
            return i;
        }
    }
    text.len()
}

/// What stands behind `::`.
fn behind_colons(text: &[u8]) -> Option<&[u8]>
    ensures { MatchOption result ((a : List ℕ) → text.now ≡ codes "::" ++ a → ⊥) (λ a. text.now ≡ codes "::" ++ a.now) }
{
    text.strip_prefix(b"::".as_slice())
}

/// The component and the action of a root, as `Component::Action`.
pub(crate) fn root_in(text: &[u8]) -> Option<(&[u8], &[u8])>
    ensures { MatchOption result (IsRoot text.now → ⊥) (λ r. (text.now ≡ r.0.now ++ (codes "::" ++ r.1.now)) × IsName r.0.now × IsName r.1.now) }
{
    let (component, rest) = text.split_at(word_length(text));
    let Some(action) = behind_colons(rest) else {
        return None;
    };
    if !is_name(component) {
        return None;
    }
    if !is_name(action) {
        return None;
    }
    Some((component, action))
}

/// Whether the text is a right value of the key, where so many lanes are there.
pub(crate) fn is_value(have: u32, key: Key, text: &[u8]) -> bool
    ensures { MatchBool result (IsValue have key text.now) (IsValue have key text.now → ⊥) }
{
    match key {
        Key::Root => root_in(text).is_some(),
        Key::Trace => !text.is_empty(),
        Key::Size => is_size(text),
        Key::Seed | Key::First => is_number(text, 0, u64::MAX),
        Key::Infer => is_number(text, 0, 8),
        Key::Budget => is_number(text, 1, 1_000_000_000),
        Key::Lanes => is_number(text, 1, u64::from(most_lanes(have))),
        Key::Over => is_number(text, 1, 16),
        Key::Space => is_number(text, 1, 1 << 62),
        Key::Base => is_number(text, 0, 1 << 62),
        Key::Count => is_number(text, 1, 4096),
    }
}

/// The most lanes of a line, where so many are there.
fn most_lanes(have: u32) -> u32
    ensures { result ≡ most_of have Key.Lanes }
{
    if have < 16 { have } else { 16 }
}
