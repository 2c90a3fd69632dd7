//! Reading a line.
ghost use Rattle.std.specs.Prelude.{◌≡◌, ◌<◌, ◌≤◌, ◌+◌, map, string_bytes, take, length, MatchResult, MatchBool};
ghost use Rattle.pst_words.specs.Lines.{AreArguments, IsWhole, IsLine, IsWrongWord};
ghost use Rattle.pst_words.specs.Read.{IsWrongBehind};

use crate::argument::{are_seeds, have_needed, is_right};
use crate::command::{Command, Lines};
use crate::line::Line;

/// Whether the word of this number stands right behind those before it, which do so too.
fn goes_on(command: Command, have: u32, words: &[String], i: usize) -> bool
    requires inside { i < length words.now }
    requires right { AreArguments command have (take i (map string_bytes words.now)) }
    ensures { MatchBool result (AreArguments command have (take (i + 1) (map string_bytes words.now))) (AreArguments command have (take (i + 1) (map string_bytes words.now)) → ⊥) }
{
    let (front, _) = words.split_at(i);
    if !is_right(command, have, front, words[i].as_bytes()) {
        return false;
    }
    let (longer, _) = words.split_at(i + 1);
    are_seeds(longer)
}

/// How many words stand right behind the command, up to the first wrong one.
fn count_right(command: Command, have: u32, words: &[String]) -> usize
    ensures inside { result ≤ length words.now }
    ensures right { AreArguments command have (take result (map string_bytes words.now)) }
    ensures wrong { result < length words.now → AreArguments command have (take (result + 1) (map string_bytes words.now)) → ⊥ }
{
    for i in 0..words.len() {
        if !goes_on(command, have, words, i) {
            return i;
        }
    }
    words.len()
}

/// The same, as a number that is small, since a line has few words.
fn count_few(command: Command, have: u32, words: &[String]) -> u32
    ensures few { result ≤ 28 }
    ensures inside { result ≤ length words.now }
    ensures right { AreArguments command have (take result (map string_bytes words.now)) }
    ensures wrong { result < length words.now → AreArguments command have (take (result + 1) (map string_bytes words.now)) → ⊥ }
{
    count_right(command, have, words) as u32
}

/// Reads the words behind the command.
fn read_arguments<'a>(command: Command, have: u32, arguments: &'a [String]) -> Result<Line<'a>, u32>
    ensures { MatchResult result
        (λ line. (line.command ≡ command) × (line.arguments.now ≡ arguments.now) × IsWhole command have (map string_bytes arguments.now))
        (λ wrong. IsWrongBehind command have (map string_bytes arguments.now) wrong) }
{
    let right = count_few(command, have, arguments);
    if (right as usize) < arguments.len() {
        return Err(right + 1);
    }
    if !have_needed(command, arguments) {
        return Err(right + 1);
    }
    Ok(Line { command, arguments })
}

/// The line that the words are, where so many lanes are there, or the number of the first wrong word: the first one such that no line of these begins with
/// the words up to it, or the number of words where something is missing.
pub fn read_words<'a>(lines: Lines, have: u32, words: &'a [String]) -> Result<Line<'a>, u32>
    ensures { MatchResult result
        (λ line. IsLine lines have (map string_bytes words.now) line.command (map string_bytes line.arguments.now))
        (λ wrong. IsWrongWord lines have (map string_bytes words.now) wrong) }
{
    let Some((first, arguments)) = words.split_first() else {
        return Err(0);
    };
    let Some(command) = Command::named(first.as_str()) else {
        return Err(0);
    };
    if have == 0 {
        return Err(0);
    }
    if !lines.serves(command) {
        return Err(0);
    }
    read_arguments(command, have, arguments)
}
