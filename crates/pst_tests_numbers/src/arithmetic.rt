//! Operations on numbers.
use pst_num::{add, and, div, mul, neg, not, or, rem, shl, shr, sub, xor};
use std::alloc::{AllocError, Global};

/// A number, or nothing, as a text.
pub fn told(alloc: Global, number: Option<i64>) -> Result<String, AllocError> {
    match number {
        Some(number) => format!(in alloc; "{number}"),
        None => String::from_str(alloc, "none"),
    }
}

/// The number that a word stands for, or 0.
pub fn number(word: &str) -> i64 {
    word.parse::<i64>().unwrap_or(0)
}

// The operations, by their signs; `-` and `~` stand for those with one operand where the other is
// `neg` and `not`.
fn result_of(left: &str, sign: &str, right: &str) -> Option<i64> {
    let (a, b) = (number(left), number(right));
    match (left, sign) {
        ("neg", _) => neg(b),
        ("not", _) => not(b),
        (_, "+") => add(a, b),
        (_, "-") => sub(a, b),
        (_, "*") => mul(a, b),
        (_, "/") => div(a, b),
        (_, "%") => rem(a, b),
        (_, "<<") => shl(a, b),
        (_, ">>") => shr(a, b),
        (_, "&") => and(a, b),
        (_, "|") => or(a, b),
        (_, "^") => xor(a, b),
        _ => None,
    }
}

/// Answers `number`: what an operation gives, or `none`. The text is two numbers round a sign, or a
/// number behind `neg of` or `not of`.
pub fn answer(alloc: Global, text: &str) -> Result<String, AllocError> {
    let mut words = text.split_whitespace();
    let left = words.next().unwrap_or("");
    let sign = words.next().unwrap_or("");
    let right = words.next().unwrap_or("");
    told(alloc, result_of(left, sign, right))
}
