//! The words behind the command.
ghost use Rattle.std.specs.Prelude.{◌≡◌, ◌<◌, ◌≤◌, ◌^◌, ◌++◌, ℕ, Contains, map, string_bytes, true, false, length, drop, MatchOption, MatchBool, Some, None, decimal, nat_eq, nat_le, ◌&&◌, List, All};
ghost use Rattle.std.specs.List.{list_any, list_all, count_by};
ghost use Rattle.pst_words.specs.Table.{key_start, needed as needed_keys, optional as optional_keys, fewest_files as fewest, IsValue};
ghost use Rattle.pst_words.specs.Lines.{is_file, is_of, times, given, AreSeeds, IsRightBehind};

use crate::command::Command;
use crate::key::Key;
use crate::value::{is_value, number_in};

/// Whether there is a `=`.
fn has_equals_sign(word: &[u8]) -> bool
    ensures { result ≡ list_any (λ b. nat_eq b 61) word.now }
{
    word.iter().any(|b| *b == b'=')
}

/// Whether the word names a file: it isn't empty and has no `=`.
pub fn is_file_name(word: &[u8]) -> bool
    ensures { result ≡ is_file word.now }
{
    !word.is_empty() && !has_equals_sign(word)
}

/// The value that the word gives the key.
fn value<'a>(key: Key, word: &'a [u8]) -> Option<&'a [u8]>
    ensures { MatchOption result (is_of key word.now ≡ false) (λ text. (is_of key word.now ≡ true) × (text.now ≡ drop (length (key_start key)) word.now)) }
{
    word.strip_prefix(key.start())
}

/// Whether the word gives the key a value.
fn gives(key: Key, word: &[u8]) -> bool
    ensures { result ≡ is_of key word.now }
{
    value(key, word).is_some()
}

/// Whether some word gives the key a value.
fn is_given_by(words: &[String], key: Key) -> bool
    ensures { result ≡ list_any (λ w. is_of key (string_bytes w)) words.now }
{
    words.iter().any(|w| gives(key, w.as_bytes()))
}

/// How many words name files.
fn count_files(words: &[String]) -> usize
    ensures { result ≡ count_by (λ w. is_file (string_bytes w)) words.now }
{
    words.iter().filter(|w| is_file_name(w.as_bytes())).count()
}

/// The value of the key, of the first word that gives it one.
pub(crate) fn find_value<'a>(key: Key, words: &'a [String]) -> Option<&'a [u8]>
    ensures { MatchOption result (given key (map string_bytes words.now) ≡ None) (λ text. given key (map string_bytes words.now) ≡ Some text.now) }
{
    for i in 0..words.len() {
        if let Some(text) = value(key, words[i].as_bytes()) {
            return Some(text);
        }
    }
    None
}

/// A key of a list to which the word gives a value.
fn key_among(keys: &[Key], word: &[u8]) -> Option<Key>
    ensures { MatchOption result (All (λ key. is_of key word.now ≡ false) keys.now) (λ key. Contains keys.now key × (is_of key word.now ≡ true)) }
{
    for i in 0..keys.len() {
        if gives(keys[i], word) {
            return Some(keys[i]);
        }
    }
    None
}

/// The number that the words give a key.
pub(crate) fn number_given(key: Key, words: &[String]) -> Option<u64>
    ensures { MatchOption result ((n : ℕ) → n < 2 ^ 64 → given key (map string_bytes words.now) ≡ Some (decimal n) → ⊥) (λ n. (given key (map string_bytes words.now) ≡ Some (decimal n)) × (n < 2 ^ 64)) }
{
    let Some(text) = find_value(key, words) else {
        return None;
    };
    number_in(text)
}

/// Whether the first seed and the count of seeds, where both are given, are together at most 2^64.
pub(crate) fn are_seeds(words: &[String]) -> bool
    ensures { MatchBool result (AreSeeds (map string_bytes words.now)) (AreSeeds (map string_bytes words.now) → ⊥) }
{
    let Some(first) = number_given(Key::First, words) else {
        return true;
    };
    let Some(count) = number_given(Key::Count, words) else {
        return true;
    };
    u128::from(first) + u128::from(count) <= 1 << 64
}

/// The key of the command to which the word gives a value.
fn key_of(command: Command, word: &[u8]) -> Option<Key>
    ensures { MatchOption result (All (λ key. is_of key word.now ≡ false) (needed_keys command ++ optional_keys command))
        (λ key. Contains (needed_keys command ++ optional_keys command) key × (is_of key word.now ≡ true)) }
{
    match key_among(command.needed(), word) {
        Some(key) => Some(key),
        None => key_among(command.optional(), word),
    }
}

/// Whether a word with `=` may stand behind these words.
fn is_right_key(command: Command, have: u32, front: &[String], word: &[u8]) -> bool
    requires { is_file word.now ≡ false }
    ensures { MatchBool result (IsRightBehind command have (map string_bytes front.now) word.now) (IsRightBehind command have (map string_bytes front.now) word.now → ⊥) }
{
    let Some(key) = key_of(command, word) else {
        return false;
    };
    let Some(text) = value(key, word) else {
        return false;
    };
    if !is_value(have, key, text) {
        return false;
    }
    !is_given_by(front, key)
}

/// Whether the word may stand behind these words.
pub(crate) fn is_right(command: Command, have: u32, front: &[String], word: &[u8]) -> bool
    ensures { MatchBool result (IsRightBehind command have (map string_bytes front.now) word.now) (IsRightBehind command have (map string_bytes front.now) word.now → ⊥) }
{
    if !is_file_name(word) {
        return is_right_key(command, have, front, word);
    }
    count_files(front) < command.most_files()
}

/// Whether the words give a value to each of the keys.
fn are_given(keys: &[Key], words: &[String]) -> bool
    ensures { result ≡ list_all (λ key. list_any (λ w. is_of key (string_bytes w)) words.now) keys.now }
{
    keys.iter().all(|key| is_given_by(words, *key))
}

/// Whether the words have the keys and files that a line of the command needs.
pub(crate) fn have_needed(command: Command, words: &[String]) -> bool
    ensures { result ≡ (list_all (λ key. list_any (λ w. is_of key (string_bytes w)) words.now) (needed_keys command) && nat_le (fewest command) (count_by (λ w. is_file (string_bytes w)) words.now)) }
{
    are_given(command.needed(), words) && command.fewest_files() <= count_files(words)
}
