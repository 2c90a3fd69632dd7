//! The least number that a chain of pairs leads back to.
ghost use Rattle.std.specs.Prelude.{◌≡◌, ◌↔◌, ◌≤◌, ◌<◌, ◌+◌, ◌*◌, ◌^◌, ℕ, length, get_or, IsTrue, IsBitSet, IfOk, IfSome};
ghost use Rattle.pst_scen.specs.Rows.{row_words, IsSquare, Has};
ghost use Rattle.pst_scen.specs.Refusals.{IsLeast};
ghost use Rattle.pst_square.specs.Chains.{IsChain};
ghost use Rattle.pst_square.specs.Bits.{HasBit, LeadsThrough};
ghost use Rattle.pst_square.specs.Circles.{IsOnCircle, LeadsLower, Descend, AreChains};

use crate::closure::{has_bit, lead_through};
use crate::guess::guess_least;
use crate::next::{lowest, rest_of_word};
use crate::walk::without;
use pst_base::NoMemory;
use pst_scen::Rows;
use std::alloc::Global;

/// The number's rank; 0 where there is none.
fn rank_of(ranks: &[u32], a: usize) -> u32
    ensures { result ≡ get_or ranks.now a 0 }
{
    if a < ranks.len() { ranks[a] } else { 0 }
}

/// Whether the word has that bit.
fn is_set(word: u64, k: usize) -> bool
    requires { k < 64 }
    ensures { IsTrue result ↔ IsBitSet word k }
{
    word >> k & 1 == 1
}

/// Whether the word lacks that bit, or the number's rank is below the limit.
fn is_lower(word: u64, k: usize, ranks: &[u32], a: usize, limit: u64) -> bool
    requires { k < 64 }
    ensures { IsTrue result → IsBitSet word k → get_or ranks.now a 0 < limit }
{
    if !is_set(word, k) {
        return true;
    }
    (rank_of(ranks, a) as u64) < limit
}

/// Whether the numbers of the word's bits have ranks below the limit.
fn are_lower(word: u64, ranks: &[u32], first: usize, limit: u64) -> bool
    requires { first < 2 ^ 33 }
    ensures { IsTrue result → (k : ℕ) → k < 64 → IsBitSet word k → get_or ranks.now (first + k) 0 < limit }
{
    if word == 0 {
        return true;
    }
    for k in 0..64 {
        if !is_lower(word, k, ranks, first + k, limit) {
            return false;
        }
    }
    true
}

/// Whether all pairs of `a` lead to ranks below the limit.
fn leads_below(rows: &Rows, ranks: &[u32], a: u32, limit: u64) -> bool
    requires square { IsSquare rows.now }
    requires a_in { a < rows.now.size }
    ensures { IsTrue result → (b : ℕ) → b < rows.now.size → Has rows.now a b → get_or ranks.now b 0 < limit }
{
    let size = rows.size;
    let mut at = 0;
    'words: while at < size as usize {
        if !are_lower(rest_of_word(rows, a, at), ranks, at, limit) {
            return false;
        }
        at += 64 - at % 64;
    }
    true
}

/// Whether all pairs of `a` lead to no higher rank, and where `a` is below `least` to a lower one.
fn leads_lower(rows: &Rows, ranks: &[u32], least: u32, a: u32) -> bool
    requires square { IsSquare rows.now }
    requires a_in { a < rows.now.size }
    ensures { IsTrue result → LeadsLower rows.now ranks.now least a }
{
    let rank = rank_of(ranks, a as usize) as u64;
    if a < least {
        return leads_below(rows, ranks, a, rank);
    }
    leads_below(rows, ranks, a, rank + 1)
}

/// Whether no pair leads to a higher rank, and those of numbers below `least` lead to lower ones.
fn descend(rows: &Rows, ranks: &[u32], least: u32) -> bool
    requires { IsSquare rows.now }
    ensures { IsTrue result → Descend rows.now ranks.now least }
{
    for a in 0..rows.size {
        if !leads_lower(rows, ranks, least, a) {
            return false;
        }
    }
    true
}

/// A number of the word's lowest bit, if it is below the size.
fn number_in(word: u64, w: usize, count: usize) -> Option<usize>
    requires { w < 2 ^ 32 }
    ensures { IfSome result (λ m. m < count) }
{
    let Some(k) = lowest(word) else {
        return None;
    };
    let m = w * 64 + k as usize;
    if m < count { Some(m) } else { None }
}

/// A number of the row of `a` that isn't marked, which it marks.
fn next_unmarked(
    words: &[u64],
    marks: &mut [u64],
    count: usize,
    row: usize,
    a: usize,
) -> Option<usize>
    requires a_in { a * row + row ≤ length words.now }
    requires small { row < 2 ^ 32 }
    ensures { IfSome result (λ m. m < count) }
{
    for w in 0..row {
        if w < marks.len() {
            let mark = marks[w];
            if let Some(m) = number_in(without(words[a * row + w], mark), w, count) {
                marks[w] = mark | 1 << (m % 64);
                return Some(m);
            }
        }
    }
    None
}

/// Whether chains lead from `a` back to it, as far as is found.
fn lead_back(words: &mut [u64], marks: &mut [u64], count: usize, row: usize, a: usize) -> bool
    requires square { length words.old ≡ count * row }
    requires row { row ≡ row_words count }
    requires small { count < 2 ^ 32 }
    requires a_in { a < count }
    ensures { IsTrue result → IsChain (HasBit row words.old) count a a }
{
    for _ in 0..count {
        if has_bit(words, row, a, a) {
            return true;
        }
        let Some(m) = next_unmarked(words, marks, count, row, a) else {
            return false;
        };
        lead_through(words, row, a, m);
    }
    has_bit(words, row, a, a)
}

/// Whether chains lead from `a` back to it. That none do is not promised.
fn leads_back(alloc: Global, direct: &Rows, a: u32) -> Result<bool, NoMemory>
    requires square { IsSquare direct.now }
    requires a_in { a < direct.now.size }
    ensures { IfOk result (λ is. IsTrue is → IsChain (Has direct.now) direct.now.size a a) }
{
    let count = direct.size as usize;
    let row = (count + 63) / 64;
    let mut words = Vec::from_slice(alloc, direct.words.as_slice())?;
    let mut marks = Vec::from_elem(alloc, 0, row)?;
    Ok(lead_back(&mut words, &mut marks, count, row, a as usize))
}

/// The least number that a chain leads back to, by a guess that is checked. None where the check
/// doesn't bear it out, or there is no such number.
pub(crate) fn least_circle(alloc: Global, direct: &Rows) -> Result<Option<u32>, NoMemory>
    requires { IsSquare direct.now }
    ensures { IfOk result (λ found. IfSome found (IsLeast (IsOnCircle direct.now))) }
{
    let guessed = guess_least(alloc, direct)?;
    let Some(least) = guessed.least else {
        return Ok(None);
    };
    if least >= direct.size {
        return Ok(None);
    }
    if !descend(direct, &guessed.ranks, least) {
        return Ok(None);
    }
    if !leads_back(alloc, direct, least)? {
        return Ok(None);
    }
    Ok(Some(least))
}
