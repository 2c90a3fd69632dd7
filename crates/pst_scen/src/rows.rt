//! Squares of bits that say which pairs of actions are related.
ghost use Rattle.std.specs.Prelude.{◌<◌, ◌↔◌, IsTrue};
ghost use Rattle.pst_scen.specs.Rows.{IsSquare, Has};

use pst_base::Items;

/// A square of bits, one for each pair of actions.
///
/// A row stands in as many words as `size` divided by 64, rounded up. The pair (a, b) is bit
/// b modulo 64, counted from the lowest, of word b / 64 of row a.
#[derive(Debug, Drop)]
pub struct Rows {
    /// The number of actions, which is the number of rows.
    pub size: u32,
    /// The words of all rows, one row after another.
    pub words: Items<u64>,
}

impl Rows {
    /// Whether the pair is in the square.
    pub fn has(&self, a: u32, b: u32) -> bool
        requires square { IsSquare self.now }
        requires a_in { a < self.now.size }
        requires b_in { b < self.now.size }
        ensures { IsTrue result ↔ Has self.now a b }
    {
        let row = (self.size as usize + 63) / 64;
        let word = self.words.as_slice()[a as usize * row + b as usize / 64];
        word >> (b % 64) & 1 == 1
    }
}
