//! Words of a row of a square of bits.
ghost use Rattle.std.specs.Prelude.{◌≡◌, ◌↔◌, ◌+◌, ◌-◌, ◌/◌, ◌%◌, ◌^◌, ◌<◌, ◌≤◌, ℕ, IsBitSet, IsTrue};
ghost use Rattle.pst_scen.specs.Rows.{IsSquare, Has, row_words};
ghost use Rattle.pst_book.specs.Parts.{IsMarked};

use pst_scen::Rows;

/// The word of that place in the row of an action.
pub fn word_at(rows: &Rows, a: u32, place: usize) -> u64
    requires square { IsSquare rows.now }
    requires a_in { a < rows.now.size }
    requires place_in { place < row_words rows.now.size }
    ensures { (m : ℕ) → m / 64 ≡ place → IsBitSet result (m % 64) ↔ Has rows.now a m }
{
    let row = (rows.size as usize + 63) / 64;
    rows.words.as_slice()[a as usize * row + place]
}

/// The first action behind the word that begins with the given one.
pub fn word_end(first: u32, size: u32) -> u32
    requires { first < size }
    ensures inside { (first < result) × (result ≤ size) }
    ensures short { result ≤ first + 64 }
    ensures all { (m : ℕ) → m < size → m < first + 64 → m < result }
{
    if size - first > 64 { first + 64 } else { size }
}

/// Whether the bit of the action is set in the word that begins with the given one.
pub fn is_marked(word: u64, first: u32, other: u32) -> bool
    requires near { (first ≤ other) × (other < first + 64) }
    ensures { IsTrue result ↔ IsMarked word first other }
{
    word >> (other - first) & 1 == 1
}

/// Whether all pairs of a word are there.
pub fn is_full(word: u64) -> bool
    ensures { IsTrue result ↔ word ≡ 2 ^ 64 - 1 }
{
    word == u64::MAX
}
