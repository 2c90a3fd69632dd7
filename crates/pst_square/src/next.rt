//! The pairs of a row, one after another. A word without pairs is passed at once.
ghost use Rattle.std.specs.Prelude.{◌≡◌, ◌↔◌, ◌≤◌, ◌<◌, ◌+◌, ◌%◌, ℕ, IsBitSet, MatchOption};
ghost use Rattle.pst_scen.specs.Rows.{IsSquare, Has};
ghost use Rattle.pst_square.specs.Next.{IsNext, IsNextOf, IsLowest};

use pst_scen::Rows;

/// The bits of the word from that one on.
pub(crate) fn from_bit(word: u64, bit: usize) -> u64
    requires { bit < 64 }
    ensures { (k : ℕ) → IsBitSet result k ↔ (bit + k < 64) × IsBitSet word (bit + k) }
{
    word >> bit
}

/// The bits of the row from that one to the end of its word.
pub(crate) fn rest_of_word(rows: &Rows, a: u32, b: usize) -> u64
    requires square { IsSquare rows.now }
    requires a_in { a < rows.now.size }
    requires b_in { b < rows.now.size }
    ensures { (k : ℕ) → IsBitSet result k ↔ (b % 64 + k < 64) × Has rows.now a (b + k) }
{
    let row = (rows.size as usize + 63) / 64;
    from_bit(rows.words.as_slice()[a as usize * row + b / 64], b % 64)
}

/// The lowest bit of the word.
pub(crate) fn lowest(word: u64) -> Option<u32>
    ensures { MatchOption result ((k : ℕ) → IsBitSet word k → ⊥) (IsLowest word) }
{
    if word == 0 {
        return None;
    }
    Some(word.trailing_zeros())
}

/// The number, if it is below the size.
fn below(b: usize, size: u32) -> Option<u32>
    ensures { MatchOption result (size ≤ b) (λ n. (n ≡ b) × (b < size)) }
{
    if b < size as usize {
        Some(b as u32)
    } else {
        None
    }
}

/// The least number of the range that the row of `a` has.
pub fn next_between(rows: &Rows, a: u32, from: usize, to: u32) -> Option<u32>
    requires square { IsSquare rows.now }
    requires a_in { a < rows.now.size }
    requires to_in { to ≤ rows.now.size }
    ensures { MatchOption result ((b : ℕ) → from ≤ b → b < to → Has rows.now a b → ⊥) (IsNextOf (λ b. from ≤ b) (Has rows.now a) to) }
{
    let mut at = from;
    'words: while at < to as usize {
        if let Some(k) = lowest(rest_of_word(rows, a, at)) {
            return below(at + k as usize, to);
        }
        at += 64 - at % 64;
    }
    None
}

/// The least number behind the given one that the row of `a` has.
pub fn next_in(rows: &Rows, a: u32, after: u32) -> Option<u32>
    requires square { IsSquare rows.now }
    requires a_in { a < rows.now.size }
    ensures { MatchOption result ((b : ℕ) → after < b → b < rows.now.size → Has rows.now a b → ⊥) (IsNext rows.now a after) }
{
    next_between(rows, a, after as usize + 1, rows.size)
}
