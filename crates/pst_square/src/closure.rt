//! The closure of a square: the pairs that a chain of its pairs joins.
ghost use Rattle.std.specs.Prelude.{◌≡◌, ◌≢◌, ◌↔◌, ◌≤◌, ◌<◌, ◌+◌, ◌*◌, ◌/◌, ℕ, length, get_or, bit_or, IsTrue, IfOk};
ghost use Rattle.pst_scen.specs.Rows.{row_words, IsSquare, Has};
ghost use Rattle.pst_square.specs.Chains.{IsChain};
ghost use Rattle.pst_square.specs.Circles.{IsClosingOf};
ghost use Rattle.pst_square.specs.Bits.{HasBit, IsJoined, LeadsThrough, GoThrough, IsClosure, IsClosureOf};

use crate::circle::least_circle;
use crate::walk::walked_rows;
use pst_base::{Items, NoMemory};
use pst_scen::Rows;
use std::alloc::Global;

/// Whether the pair's bit is set, where so many words stand in a row.
pub(crate) fn has_bit(words: &[u64], row: usize, a: usize, b: usize) -> bool
    requires { a * row + b / 64 < length words.now }
    ensures { IsTrue result ↔ HasBit row words.now a b }
{
    words[a * row + b / 64] >> (b % 64) & 1 == 1
}

/// Gives a word the bits of another one too.
fn join_word(words: &mut [u64], at: usize, from: usize)
    requires at_in { at < length words.old }
    requires from_in { from < length words.old }
    ensures many { length words.new ≡ length words.old }
    ensures at { get_or words.new at 0 ≡ bit_or (get_or words.old at 0) (get_or words.old from 0) }
    ensures others { (i : ℕ) → i ≢ at → get_or words.new i 0 ≡ get_or words.old i 0 }
{
    let more = words[from];
    words[at] |= more;
}

/// Gives the row of `a` the bits of m's row too.
pub(crate) fn join_row(words: &mut [u64], row: usize, a: usize, m: usize)
    requires a_in { a * row + row ≤ length words.old }
    requires m_in { m * row + row ≤ length words.old }
    ensures { IsJoined row words.old words.new a m }
{
    for w in 0..row {
        join_word(words, a * row + w, m * row + w);
    }
}

/// Adds the pairs of `a` that lead through `m`.
pub(crate) fn lead_through(words: &mut [u64], row: usize, a: usize, m: usize)
    requires a_in { a * row + row ≤ length words.old }
    requires m_in { m * row + row ≤ length words.old }
    requires word_in { m / 64 < row }
    ensures { LeadsThrough row words.old words.new a m }
{
    if has_bit(words, row, a, m) {
        join_row(words, row, a, m);
    }
}

/// Adds the pairs that lead through `m`.
fn go_through(words: &mut [u64], count: usize, row: usize, m: usize)
    requires square { length words.old ≡ count * row }
    requires m_in { m < count }
    requires word_in { m / 64 < row }
    ensures { GoThrough row words.old words.new count m }
{
    for a in 0..count {
        lead_through(words, row, a, m);
    }
}

/// Adds the pairs that a chain joins, by one middle after another.
fn close(words: &mut [u64], count: usize, row: usize)
    requires square { length words.old ≡ count * row }
    requires row { row ≡ row_words count }
    ensures { IsClosure count row words.old words.new }
{
    for m in 0..count {
        go_through(words, count, row, m);
    }
}

/// The square of the pairs that a chain of the given ones joins, by one middle after another, in
/// time that grows with the cube of its size.
pub(crate) fn stepwise_rows(alloc: Global, direct: &Rows) -> Result<Rows, NoMemory>
    requires { IsSquare direct.now }
    ensures { IfOk result (IsClosureOf direct.now) }
{
    let count = direct.size as usize;
    let mut words = Vec::from_slice(alloc, direct.words.as_slice())?;
    close(&mut words, count, (count + 63) / 64);
    Ok(Rows {
        size: direct.size,
        words: Items::from_vec(words),
    })
}

/// What chains of pairs come to.
#[derive(Debug, Drop)]
pub enum Closing {
    /// The pairs that a chain joins.
    Closed { rows: Rows },
    /// The least number that a chain leads back to.
    Circle { least: u32 },
}

/// The square of the pairs that a chain of the given ones joins. Where a chain leads from a number
/// back to it, the least such number may be given in its place.
pub fn closed_rows(alloc: Global, direct: &Rows) -> Result<Closing, NoMemory>
    requires { IsSquare direct.now }
    ensures { IfOk result (IsClosingOf direct.now) }
{
    if let Some(rows) = walked_rows(alloc, direct)? {
        return Ok(Closing::Closed { rows });
    }
    if let Some(least) = least_circle(alloc, direct)? {
        return Ok(Closing::Circle { least });
    }
    let rows = stepwise_rows(alloc, direct)?;
    Ok(Closing::Closed { rows })
}
