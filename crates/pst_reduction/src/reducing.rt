//! The pairs of a square but those that lead through a third number, as far as these are found in few
//! looks.
ghost use Rattle.std.specs.Prelude.{◌≡◌, ◌≢◌, ◌↔◌, ◌≤◌, ◌<◌, ◌+◌, ◌*◌, ◌/◌, ◌^◌, ℕ, length, get_or, IsTrue, IsBitSet, IfOk, IfSome};
ghost use Rattle.pst_scen.specs.Rows.{row_words, IsSquare};
ghost use Rattle.pst_square.specs.Bits.{HasBit};
ghost use Rattle.pst_reduction.specs.Parts.{IsTaken, IsThinned, AreThinBelow};
ghost use Rattle.pst_reduction.specs.Reduced.{IsReduced};

use pst_base::{Items, NoMemory};
use pst_scen::Rows;
use std::alloc::Global;

/// How many numbers of a row are looked at. Each look takes as many steps as a row has words, so a
/// square of n numbers takes at most n times n of them. Pairs behind these looks are kept.
const MOST_LOOKS: usize = 64;

// Whether the pair's bit is set, where so many words stand in a row.
fn has_bit(words: &[u64], row: usize, a: usize, b: usize) -> bool
    requires { a * row + b / 64 < length words.now }
    ensures { IsTrue result ↔ HasBit row words.now a b }
{
    words[a * row + b / 64] >> (b % 64) & 1 == 1
}

// The bits of the first word that the second one lacks.
fn without(word: u64, other: u64) -> u64
    ensures { (k : ℕ) → k < 64 → IsBitSet result k ↔ IsBitSet word k × (IsBitSet other k → ⊥) }
{
    word & !other
}

// Takes the bits of another word from one of the words.
fn take_word(words: &mut [u64], at: usize, other: u64)
    requires at_in { at < length words.old }
    ensures many { length words.new ≡ length words.old }
    ensures at { (k : ℕ) → k < 64 → IsBitSet (get_or words.new at 0) k ↔ IsBitSet (get_or words.old at 0) k × (IsBitSet other k → ⊥) }
    ensures others { (i : ℕ) → i ≢ at → get_or words.new i 0 ≡ get_or words.old i 0 }
{
    words[at] = without(words[at], other);
}

// Takes the bits that the row of `c` has in the whole square from the row of `a`.
fn take_row(words: &mut [u64], whole: &[u64], row: usize, a: usize, c: usize)
    requires a_in { a * row + row ≤ length words.old }
    requires c_in { c * row + row ≤ length whole.now }
    ensures { IsTaken row whole.now words.old words.new a c }
{
    for w in 0..row {
        take_word(words, a * row + w, whole[c * row + w]);
    }
}

// The number, if it is below the size and the row of `a` has it.
fn number_at(words: &[u64], row: usize, count: usize, a: usize, b: usize) -> Option<usize>
    requires within { a * row + row ≤ length words.now }
    requires row { row ≡ row_words count }
    ensures { IfSome result (λ c. (c < count) × HasBit row words.now a c) }
{
    if b >= count {
        return None;
    }
    if has_bit(words, row, a, b) {
        Some(b)
    } else {
        None
    }
}

// The first number from the given one on that the row of `a` has.
fn next_number(words: &[u64], row: usize, count: usize, a: usize, from: usize) -> Option<usize>
    requires within { a * row + row ≤ length words.now }
    requires row { row ≡ row_words count }
    requires small { count < 2 ^ 32 }
    ensures { IfSome result (λ c. (c < count) × HasBit row words.now a c) }
{
    let mut at = from;
    'words: while at < count {
        let word = words[a * row + at / 64] >> (at % 64);
        if word != 0 {
            return number_at(words, row, count, a, at + word.trailing_zeros() as usize);
        }
        at += 64 - at % 64;
    }
    None
}

// Takes from the row of `a` what the rows of its numbers have, one after another.
fn thin_row(words: &mut [u64], whole: &[u64], row: usize, count: usize, a: usize)
    requires many { length words.old ≡ length whole.now }
    requires square { length whole.now ≡ count * row }
    requires row { row ≡ row_words count }
    requires small { count < 2 ^ 32 }
    requires a_in { a < count }
    requires same { (w : ℕ) → w < row → get_or words.old (a * row + w) 0 ≡ get_or whole.now (a * row + w) 0 }
    ensures { IsThinned row whole.now count words.old words.new a }
{
    let mut from = 0;
    for _ in 0..MOST_LOOKS {
        let Some(c) = next_number(words, row, count, a, from) else {
            return;
        };
        take_row(words, whole, row, a, c);
        from = c + 1;
    }
}

// Does so with each row.
fn thin_rows(words: &mut [u64], whole: &[u64], row: usize, count: usize)
    requires same { words.old ≡ whole.now }
    requires square { length whole.now ≡ count * row }
    requires row { row ≡ row_words count }
    requires small { count < 2 ^ 32 }
    ensures { AreThinBelow row whole.now count words.new count }
{
    for a in 0..count {
        thin_row(words, whole, row, count, a);
    }
}

/// The pairs of a square but some that lead through a third number: such a pair (a, b) with pairs
/// (a, c) and (c, b).
///
/// Where pairs say what comes before what, who waits for the pairs that are kept waits for all. A row is
/// gone through in ascending order, and the row of each number found is taken from it; behind 64
/// numbers the rest stays. So of a chain of n numbers with all of its pairs n - 1 are kept.
pub fn reduced(alloc: Global, rows: &Rows) -> Result<Rows, NoMemory>
    requires { IsSquare rows.now }
    ensures { IfOk result (IsReduced rows.now) }
{
    let count = rows.size as usize;
    let whole = rows.words.as_slice();
    let mut words = Vec::from_slice(alloc, whole)?;
    thin_rows(&mut words, whole, (count + 63) / 64, count);
    Ok(Rows {
        size: rows.size,
        words: Items::from_vec(words),
    })
}
