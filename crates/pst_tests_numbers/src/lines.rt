//! Words of the command line.
use pst_words::{Key, Lines, read_words};
use std::alloc::{AllocError, Global};

// The words of a text, with a blank between each two.
fn words_of(alloc: Global, text: &str) -> Result<Vec<String>, AllocError> {
    let mut words = Vec::new(alloc);
    for word in text.split(' ') {
        words.push(String::from_str(alloc, word)?)?;
    }
    Ok(words)
}

// Which lines a call serves.
fn served(call: &str) -> Lines {
    match call {
        "alone" => Lines::WithoutSweep,
        "seeds" => Lines::SweepAlone,
        _ => Lines::All,
    }
}

/// The seed, the most inferred actions, the budget and the lanes of a line, or the first wrong word.
pub fn answer(alloc: Global, call: &str, text: &str, lanes: u32) -> Result<String, AllocError> {
    let words = words_of(alloc, text)?;
    match read_words(served(call), lanes, &words) {
        Err(word) => format!(in alloc; "word {word}"),
        Ok(line) => {
            let seed = line.number(Key::Seed, 1);
            let infer = line.number(Key::Infer, 2);
            let budget = line.number(Key::Budget, 100_000);
            let lanes = line.number(Key::Lanes, 1);
            format!(in alloc; "{seed} {infer} {budget} {lanes}")
        }
    }
}
