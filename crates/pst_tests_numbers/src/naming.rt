//! The table of names, and the order of places.
ghost use Rattle.std.specs.Prelude.{◌≤◌, ◌^◌, length};

use pst_base::{NameId, Names, Place};
use std::alloc::{AllocError, Global};

// The number of a name as a text, or `none`.
fn told(alloc: Global, names: &Names, id: Option<NameId>) -> Result<String, AllocError> {
    match id {
        Some(id) if id.0 < names.len() => {
            let text = names.text(id);
            format!(in alloc; "{} {text}", id.0)
        }
        Some(_) => String::from_str(alloc, "no such name"),
        None => String::from_str(alloc, "none"),
    }
}

// What a word is named among the words before a `|`.
fn found(alloc: Global, text: &str) -> Result<String, AllocError> {
    let mut names = Names::new(alloc);
    let (words, last) = text.split_once(" | ").unwrap_or((text, ""));
    for word in words.split_whitespace() {
        if names.len() > 100 || names.intern(word).is_err() {
            return String::from_str(alloc, "no memory");
        }
    }
    let count = names.len();
    let mut answer = told(alloc, &names, names.find(last))?;
    write!(answer, " of {count}")?;
    Ok(answer)
}

// A place by its numbers.
fn place(text: &str) -> Place {
    let mut words = text.split_whitespace();
    let file = words.next().unwrap_or("").parse::<u32>().unwrap_or(0);
    let line = words.next().unwrap_or("").parse::<u32>().unwrap_or(0);
    let column = words.next().unwrap_or("").parse::<u32>().unwrap_or(0);
    Place { file, line, column }
}

/// Answers these calls:
///
/// - `name`: the number and the text of the word behind ` | ` among the words before it, or `none`,
///   and how many different words these are.
/// - `before`: whether the place before ` | ` stands before the one behind it.
pub fn answer(alloc: Global, call: &str, text: &str) -> Result<String, AllocError> {
    let (left, right) = text.split_once(" | ").unwrap_or((text, ""));
    match call {
        "name" => found(alloc, text),
        "before" if place(left).is_before(place(right)) => String::from_str(alloc, "before"),
        "before" => String::from_str(alloc, "not before"),
        _ => String::from_str(alloc, "no such call"),
    }
}
