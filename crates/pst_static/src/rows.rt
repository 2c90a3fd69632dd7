//! Rows of a square of bits.
//!
//! A row is looked at word by word, and a word without pairs is passed at once.
ghost use Rattle.std.specs.Prelude.{◌≡◌, ◌≢◌, ◌↔◌, ◌+◌, ◌/◌, ◌%◌, ◌<◌, ◌≤◌, ℕ, length, get_or, true, false, IsBitSet, IsTrue};
ghost use Rattle.pst_scen.specs.Rows.{IsSquare, Has, row_words};
ghost use Rattle.pst_book.specs.Parts.{IsMarked};

use pst_scen::Rows;
use pst_tallies::word_at;

/// The place of the first word from a place on that isn't 0, or the number of words.
pub(crate) fn next_word(rows: &Rows, a: u32, from: usize, words: usize) -> usize
    requires square { IsSquare rows.now }
    requires a_in { a < rows.now.size }
    requires words { words ≡ row_words rows.now.size }
    requires from { from ≤ words }
    ensures inside { (from ≤ result) × (result ≤ words) }
    ensures none { (m : ℕ) → from ≤ m / 64 → m / 64 < result → Has rows.now a m → ⊥ }
{
    for place in from..words {
        if word_at(rows, a, place) != 0 {
            return place;
        }
    }
    words
}

/// Marks a block of 64 actions whose word isn't 0.
fn mark_block(marks: &mut [bool], word: u64, place: usize)
    requires { place < length marks.old }
    ensures kept { (b : ℕ) → get_or marks.old b false ≡ true → get_or marks.new b false ≡ true }
    ensures marked { word ≢ 0 → get_or marks.new place false ≡ true }
{
    if word != 0 {
        marks[place] = true;
    }
}

/// Marks the block of 64 actions of each action that the square pairs with the given one.
pub(crate) fn mark_blocks(marks: &mut [bool], rows: &Rows, a: u32)
    requires square { IsSquare rows.now }
    requires a_in { a < rows.now.size }
    requires many { length marks.old ≡ row_words rows.now.size }
    ensures kept { (b : ℕ) → get_or marks.old b false ≡ true → get_or marks.new b false ≡ true }
    ensures marked { (m : ℕ) → m < rows.now.size → Has rows.now a m → get_or marks.new (m / 64) false ≡ true }
{
    for place in 0..marks.len() {
        mark_block(marks, word_at(rows, a, place), place);
    }
}
