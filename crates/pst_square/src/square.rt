//! Squares of bits in the making.
ghost use Rattle.std.specs.Prelude.{◌≡◌, ◌≢◌, ◌↔◌, ◌⊎◌, ◌≤◌, ◌<◌, ◌+◌, ◌*◌, ◌/◌, ◌^◌, ℕ, length, get_or, IsTrue, IsBitSet, IfOk};
ghost use Rattle.pst_scen.specs.Rows.{row_words, IsSquare, Has};
ghost use Rattle.pst_square.specs.Marks.{IsWithMarked, IsWithMarkedAt};
ghost use Rattle.pst_square.specs.Squares.{IsBlank, Adds, IsPair, IsMasked, IsWithin, IsInRange, IsInPart, IsFilled};

use crate::walk::without;
use pst_base::{Items, NoMemory};
use pst_scen::Rows;
use std::alloc::Global;
use std::marker::Model;

/// A square of bits, one for each pair of numbers below its size. Contracts see it as the rows that
/// it becomes.
#[derive(Drop)]
pub struct Square {
    size: u32,
    words: Vec<u64>,
}

impl Model for Square {
    ghost use Rattle.std.specs.Prelude.{◌≡◌, ◌*◌, length};
    ghost use Rattle.pst_scen.specs.declared.rows.Rows.{Rows};
    ghost use Rattle.pst_scen.specs.Rows.{row_words};

    ghost Value = { Rows };

    ghost view = { λ s. record { size = s.size; words = s.words.items } };

    ghost invariant = { λ s. length s.words.items ≡ s.size * row_words s.size };
}

/// The number of words in which a row of so many bits stands.
fn words_in(size: u32) -> usize
    ensures { result ≡ row_words size }
{
    (size as usize + 63) / 64
}

/// The word of that bit alone.
fn bit(k: u32) -> u64
    requires { k < 64 }
    ensures { (j : ℕ) → IsBitSet result j ↔ j ≡ k }
{
    1 << k
}

/// Whether the number that stands k after the first one lies in the range.
fn is_within(first: usize, from: usize, to: usize, k: usize) -> bool
    requires { first + k < 2 ^ 64 }
    ensures { IsTrue result ↔ IsWithin first from to k }
{
    from <= first + k && first + k < to
}

/// The word's bits whose numbers lie in the range, where its lowest bit is of the first number.
fn range_mask(first: usize, from: usize, to: usize) -> u64
    requires { first < 2 ^ 32 }
    ensures { (k : ℕ) → IsBitSet result k ↔ (k < 64) × IsWithin first from to k }
{
    if is_within(first, from, to, 0) && is_within(first, from, to, 63) {
        return u64::MAX;
    }
    let mut mask = 0;
    for k in 0..64 {
        if is_within(first, from, to, k) {
            mask = mask | 1 << k;
        }
    }
    mask
}

/// Sets all bits of the words from one place on up to another.
fn fill_words(words: &mut [u64], from: usize, to: usize)
    requires to_in { to ≤ length words.old }
    requires order { from ≤ to }
    ensures many { length words.new ≡ length words.old }
    ensures filled { (i : ℕ) → from ≤ i → i < to → get_or words.new i 0 ≡ 18446744073709551615 }
    ensures others { (i : ℕ) → (i < from) ⊎ (to ≤ i) → get_or words.new i 0 ≡ get_or words.old i 0 }
{
    for i in from..to {
        words[i] = u64::MAX;
    }
}

/// The word `w` of a row without the bit of that number.
fn word_without(word: u64, w: usize, b: usize) -> u64
    requires { w < 2 ^ 32 }
    ensures { (k : ℕ) → k < 64 → IsBitSet result k ↔ IsBitSet word k × (w * 64 + k ≢ b) }
{
    if b / 64 != w {
        return word;
    }
    without(word, bit((b % 64) as u32))
}

impl Square {
    /// The square of that size without a pair.
    pub fn new(alloc: Global, size: u32) -> Result<Square, NoMemory>
        ensures { IfOk result (λ square. IsBlank square size) }
    {
        let words = Vec::from_elem(alloc, 0, size as usize * words_in(size))?;
        Ok(Square { size, words })
    }

    /// The place of the word in which the row of `a` has its word `w`.
    fn place(&self, a: u32, w: usize) -> usize
        requires a_in { a < self.now.size }
        requires w_in { w < row_words self.now.size }
        ensures is { result ≡ a * row_words self.now.size + w }
        ensures within { result < length self.now.words }
    {
        a as usize * words_in(self.size) + w
    }

    /// Whether it has the pair.
    pub(crate) fn has(&self, a: u32, b: u32) -> bool
        requires a_in { a < self.now.size }
        requires b_in { b < self.now.size }
        ensures { IsTrue result ↔ Has self.now a b }
    {
        let word = self.words[self.place(a, b as usize / 64)];
        word >> (b % 64) & 1 == 1
    }

    /// Adds the pairs of one word of the row of `a`.
    pub(crate) fn add_word(&mut self, a: u32, w: usize, mask: u64)
        requires a_in { a < self.old.size }
        requires w_in { w < row_words self.old.size }
        ensures { Adds self.old self.new (IsMasked a w mask) }
    {
        let place = self.place(a, w);
        let word = self.words[place];
        self.words[place] = word | mask;
    }

    /// Adds the pair.
    pub fn add(&mut self, a: u32, b: u32)
        requires a_in { a < self.old.size }
        requires b_in { b < self.old.size }
        ensures { Adds self.old self.new (IsPair a b) }
    {
        self.add_word(a, b as usize / 64, bit(b % 64));
    }

    /// Adds the pairs of the row of `a` whose second number lies in the range, in those words.
    fn add_part(&mut self, a: u32, from: u32, to: u32, first: usize, last: usize)
        requires a_in { a < self.old.size }
        requires to_in { to ≤ self.old.size }
        requires order { first ≤ last }
        requires last_in { last ≤ (to + 63) / 64 }
        ensures { Adds self.old self.new (IsInPart a from to first last) }
    {
        for w in first..last {
            self.add_word(a, w, range_mask(w * 64, from as usize, to as usize));
        }
    }

    /// Adds all pairs of the row of `a` in those words.
    fn fill(&mut self, a: u32, first: usize, last: usize)
        requires a_in { a < self.old.size }
        requires last_in { last ≤ row_words self.old.size }
        ensures { Adds self.old self.new (IsFilled a first last) }
    {
        if first >= last {
            return;
        }
        let start = self.place(a, 0);
        fill_words(&mut self.words, start + first, start + last);
    }

    /// Adds the pairs of the row of `a` whose second number lies in the range: its first word, those
    /// that lie in it wholly, and what is left.
    pub fn add_range(&mut self, a: u32, from: u32, to: u32)
        requires a_in { a < self.old.size }
        requires to_in { to ≤ self.old.size }
        ensures { Adds self.old self.new (IsInRange a from to) }
    {
        if from >= to {
            return;
        }
        let first = from as usize / 64;
        let last = to as usize / 64;
        self.add_part(a, from, to, first, first + 1);
        self.fill(a, first + 1, last);
        self.add_part(a, from, to, last.max(first + 1), (to as usize + 63) / 64);
    }

    /// The number of words of a row.
    fn row_len(&self) -> usize
        ensures is { result ≡ row_words self.now.size }
        ensures small { result < 2 ^ 32 }
    {
        words_in(self.size)
    }

    /// Adds, in one word, the pairs of `a` with the other numbers of the set.
    fn add_marked_word(&mut self, a: u32, marks: &[u64], w: usize)
        requires a_in { a < self.old.size }
        requires many { length marks.now ≡ row_words self.old.size }
        requires w_in { w < row_words self.old.size }
        requires small { w < 2 ^ 32 }
        ensures { Adds self.old self.new (IsWithMarkedAt marks.now a w) }
    {
        let mask = word_without(marks[w], w, a as usize);
        self.add_word(a, w, mask);
    }

    /// Adds the pairs of `a` with the other numbers of the set.
    pub fn add_marked(&mut self, a: u32, marks: &[u64])
        requires a_in { a < self.old.size }
        requires many { length marks.now ≡ row_words self.old.size }
        ensures { Adds self.old self.new (IsWithMarked marks.now a) }
    {
        for w in 0..self.row_len() {
            self.add_marked_word(a, marks, w);
        }
    }

    /// The rows of the square.
    pub fn into_rows(self) -> Rows
        ensures is { result ≡ self }
        ensures square { IsSquare result }
    {
        Rows {
            size: self.size,
            words: Items::from_vec(self.words),
        }
    }
}
