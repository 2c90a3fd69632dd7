//! Numbers of the actions that a square of bits pairs with one action.
//!
//! A row is looked at word by word, and a word without pairs is passed at once.
ghost use Rattle.std.specs.Prelude.{◌≡◌, ◌≢◌, ◌↔◌, ◌+◌, ◌*◌, ◌/◌, ◌^◌, ◌%◌, ◌<◌, ◌≤◌, ℕ, length, get_or, IsBitSet, IsTrue};
ghost use Rattle.pst_scen.specs.Rows.{IsSquare, Has, row_words};
ghost use Rattle.pst_book.specs.Tables.{AreRaised, AreLowered};
ghost use Rattle.pst_book.specs.Parts.{IsRaised, IsLowered, IsMarked, AreChanged, AreWordChanged};

use pst_scen::Rows;

/// The word of that place in the row of an action.
pub(crate) fn word_at(rows: &Rows, a: u32, place: usize) -> u64
    requires square { IsSquare rows.now }
    requires a_in { a < rows.now.size }
    requires place_in { place < row_words rows.now.size }
    ensures { (m : ℕ) → m / 64 ≡ place → IsBitSet result (m % 64) ↔ Has rows.now a m }
{
    let row = (rows.size as usize + 63) / 64;
    rows.words.as_slice()[a as usize * row + place]
}

/// The place of the first word from a place on that isn't 0, or the number of words.
pub(crate) fn next_word(rows: &Rows, a: u32, from: usize, words: usize) -> usize
    requires square { IsSquare rows.now }
    requires a_in { a < rows.now.size }
    requires words { words ≡ row_words rows.now.size }
    requires from { from ≤ words }
    ensures inside { (from ≤ result) × (result ≤ words) }
    ensures none { (m : ℕ) → from ≤ m / 64 → m / 64 < result → Has rows.now a m → ⊥ }
{
    for place in from..words {
        if word_at(rows, a, place) != 0 {
            return place;
        }
    }
    words
}

/// The first action behind the word that begins with the given one.
pub(crate) fn word_end(first: u32, size: u32) -> u32
    requires { first < size }
    ensures inside { (first < result) × (result ≤ size) }
    ensures short { result ≤ first + 64 }
    ensures all { (m : ℕ) → m < size → m < first + 64 → m < result }
{
    if size - first > 64 { first + 64 } else { size }
}

/// Whether the bit of the action is set in the word that begins with the given one.
pub(crate) fn is_marked(word: u64, first: u32, other: u32) -> bool
    requires near { (first ≤ other) × (other < first + 64) }
    ensures { IsTrue result ↔ IsMarked word first other }
{
    word >> (other - first) & 1 == 1
}

fn raise_one(counts: &mut [u32], word: u64, first: u32, other: u32)
    requires near { (first ≤ other) × (other < first + 64) }
    requires other_in { other < length counts.old }
    requires room { IsMarked word first other → get_or counts.old other 0 + 1 < 2 ^ 32 }
    ensures here { IsRaised (IsMarked word first) other (get_or counts.old other 0) (get_or counts.new other 0) }
    ensures others { (m : ℕ) → m ≢ other → get_or counts.new m 0 ≡ get_or counts.old m 0 }
{
    if is_marked(word, first, other) {
        counts[other as usize] += 1;
    }
}

fn raise_part(counts: &mut [u32], word: u64, first: u32, end: u32)
    requires short { end ≤ first + 64 }
    requires inside { (first ≤ end) × (end ≤ length counts.old) }
    requires room { (m : ℕ) → first ≤ m → m < end → IsMarked word first m → get_or counts.old m 0 + 1 < 2 ^ 32 }
    ensures { AreChanged (IsRaised (IsMarked word first)) counts.old counts.new first end }
{
    for other in first..end {
        raise_one(counts, word, first, other);
    }
}

fn raise_word(counts: &mut [u32], word: u64, place: usize, size: u32)
    requires place_in { place * 64 < size }
    requires many { length counts.old ≡ size }
    requires room { (m : ℕ) → m < length counts.old → m / 64 ≡ place → IsBitSet word (m % 64) → get_or counts.old m 0 + 1 < 2 ^ 32 }
    ensures { AreWordChanged (IsRaised (λ m. IsBitSet word (m % 64))) counts.old counts.new place }
{
    let first = place as u32 * 64;
    raise_part(counts, word, first, word_end(first, size));
}

/// Raises the number of each action with which the square pairs the given one, in a table of
/// numbers by actions.
pub fn raise(counts: &mut [u32], rows: &Rows, a: u32)
    requires square { IsSquare rows.now }
    requires a_in { a < rows.now.size }
    requires many { length counts.old ≡ rows.now.size }
    requires room { (m : ℕ) → m < rows.now.size → Has rows.now a m → get_or counts.old m 0 + 1 < 2 ^ 32 }
    ensures { AreRaised rows.now a counts.old counts.new }
{
    let words = (rows.size as usize + 63) / 64;
    let mut place = next_word(rows, a, 0, words);
    'words: while place < words {
        raise_word(counts, word_at(rows, a, place), place, rows.size);
        place = next_word(rows, a, place + 1, words);
    }
}

fn lower_one(counts: &mut [u32], word: u64, first: u32, other: u32)
    requires near { (first ≤ other) × (other < first + 64) }
    requires other_in { other < length counts.old }
    requires some { IsMarked word first other → 0 < get_or counts.old other 0 }
    ensures here { IsLowered (IsMarked word first) other (get_or counts.old other 0) (get_or counts.new other 0) }
    ensures others { (m : ℕ) → m ≢ other → get_or counts.new m 0 ≡ get_or counts.old m 0 }
{
    if is_marked(word, first, other) {
        counts[other as usize] -= 1;
    }
}

fn lower_part(counts: &mut [u32], word: u64, first: u32, end: u32)
    requires short { end ≤ first + 64 }
    requires inside { (first ≤ end) × (end ≤ length counts.old) }
    requires some { (m : ℕ) → first ≤ m → m < end → IsMarked word first m → 0 < get_or counts.old m 0 }
    ensures { AreChanged (IsLowered (IsMarked word first)) counts.old counts.new first end }
{
    for other in first..end {
        lower_one(counts, word, first, other);
    }
}

fn lower_word(counts: &mut [u32], word: u64, place: usize, size: u32)
    requires place_in { place * 64 < size }
    requires many { length counts.old ≡ size }
    requires some { (m : ℕ) → m < length counts.old → m / 64 ≡ place → IsBitSet word (m % 64) → 0 < get_or counts.old m 0 }
    ensures { AreWordChanged (IsLowered (λ m. IsBitSet word (m % 64))) counts.old counts.new place }
{
    let first = place as u32 * 64;
    lower_part(counts, word, first, word_end(first, size));
}

/// Lowers the number of each action with which the square pairs the given one, in a table of
/// numbers by actions.
pub fn lower(counts: &mut [u32], rows: &Rows, a: u32)
    requires square { IsSquare rows.now }
    requires a_in { a < rows.now.size }
    requires many { length counts.old ≡ rows.now.size }
    requires some { (m : ℕ) → m < rows.now.size → Has rows.now a m → 0 < get_or counts.old m 0 }
    ensures { AreLowered rows.now a counts.old counts.new }
{
    let words = (rows.size as usize + 63) / 64;
    let mut place = next_word(rows, a, 0, words);
    'words: while place < words {
        lower_word(counts, word_at(rows, a, place), place, rows.size);
        place = next_word(rows, a, place + 1, words);
    }
}
