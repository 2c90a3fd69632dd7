//! Random words.
ghost use Rattle.std.specs.Prelude.{◌-◌, ◌^◌, ◌<◌};

use pst_rng::{Words, start, weighted_start, word};
use std::alloc::{AllocError, Global};

// The weights of four options.
const WEIGHTS: [u32; 4] = [1, 2, 3, 4];

// A number of a word, or 0.
fn count(word: Option<&str>) -> u64 {
    word.unwrap_or("").parse::<u64>().unwrap_or(0)
}

// What a reader of the words gives at a place, which is below the last.
fn next(call: &str, seed: u64, place: u64, options: u64) -> u64
    requires place { place < 2 ^ 64 - 1 }
    requires some { 0 < options }
{
    let mut words = Words::new(seed, place);
    match call {
        "start" => words.next_start(options),
        "weighted" => words.next_weighted_start(&WEIGHTS) as u64,
        _ => words.next_word(),
    }
}

// What is given at a place by itself.
fn single(call: &str, seed: u64, place: u64, options: u64) -> u64
    requires { 0 < options }
{
    match call {
        "start" => start(seed, place, options),
        "weighted" => weighted_start(seed, place, &WEIGHTS) as u64,
        _ => word(seed, place),
    }
}

/// Answers these calls on a seed and a place, by themselves and by a reader of words:
///
/// - `word`: the word there.
/// - `start`: where the seed begins among so many options as stand behind the place.
/// - `weighted`: where it begins among four options with the weights 1, 2, 3 and 4.
pub fn answer(alloc: Global, call: &str, text: &str) -> Result<String, AllocError> {
    let mut words = text.split_whitespace();
    let seed = count(words.next());
    let place = count(words.next());
    let options = count(words.next()).max(1);
    let found = single(call, seed, place, options);
    if place < u64::MAX && next(call, seed, place, options) != found {
        return String::from_str(alloc, "otherwise by a reader");
    }
    format!(in alloc; "{found}")
}
