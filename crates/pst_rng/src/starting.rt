ghost use Rattle.std.specs.Prelude.{◌≡◌, ◌+◌, ◌-◌, ◌^◌, ◌<◌, All, length};
ghost use Rattle.pst_rng.specs.Words.{start_of};
ghost use Rattle.pst_rng.specs.Weights.{IsWeight, IsLeastAbove, weighted_start_of, weighted_word_of};

use crate::reading::{Words, word};
use crate::weights::weighted_index;

/// Returns where `seed` begins among `n` options at `place`: the word there, modulo `n`. A single
/// option needs no word.
pub fn start(seed: u64, place: u64, n: u64) -> u64
    requires { 0 < n }
    ensures { result ≡ start_of seed place n }
{
    if n == 1 { 0 } else { word(seed, place) % n }
}

/// Returns where `seed` begins at `place` among options that have weights: the least index whose
/// summed weights, its own included, exceed the word there modulo the total of the weights.
pub fn weighted_start(seed: u64, place: u64, weights: &[u32]) -> usize
    requires some { 0 < length weights.now }
    requires each { All IsWeight weights.now }
    ensures value { result ≡ weighted_start_of seed place weights.now }
    ensures least { IsLeastAbove (weighted_word_of seed place weights.now) weights.now result }
{
    weighted_index(word(seed, place), weights)
}

impl Words {
    /// Returns [`start`] at the reader's place, and moves on by one place.
    pub fn next_start(&mut self, n: u64) -> u64
        requires place { self.old.place < 2 ^ 64 - 1 }
        requires some { 0 < n }
        ensures start { result ≡ start_of self.old.seed self.old.place n }
        ensures moved { self.new ≡ record self.old { place = self.old.place + 1 } }
    {
        self.next_word() % n
    }

    /// Returns [`weighted_start`] at the reader's place, and moves on by one place.
    pub fn next_weighted_start(&mut self, weights: &[u32]) -> usize
        requires place { self.old.place < 2 ^ 64 - 1 }
        requires some { 0 < length weights.now }
        requires each { All IsWeight weights.now }
        ensures value { result ≡ weighted_start_of self.old.seed self.old.place weights.now }
        ensures least { IsLeastAbove (weighted_word_of self.old.seed self.old.place weights.now) weights.now result }
        ensures moved { self.new ≡ record self.old { place = self.old.place + 1 } }
    {
        weighted_index(self.next_word(), weights)
    }
}
