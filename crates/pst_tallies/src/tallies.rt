//! Counts of actions, each in two entries of a table.
//!
//! An action has an entry of its own, and one that it shares with the others of its word. A row's word
//! in which all bits are set is counted in the common entry. So where an action is paired with all
//! behind it, as in a chain, most of a row is counted in as many steps as it has words.
ghost use Rattle.std.specs.Prelude.{◌≡◌, ◌≢◌, ◌↔◌, ◌+◌, ◌*◌, ◌/◌, ◌^◌, ◌%◌, ◌<◌, ◌≤◌, ℕ, length, get_or, IsBitSet, IsTrue};
ghost use Rattle.pst_scen.specs.Rows.{IsSquare, Has, row_words};
ghost use Rattle.pst_book.specs.Tables.{AreRaised, AreLowered, AreAllAwaited};
ghost use Rattle.pst_book.specs.Parts.{IsMarked, AreChanged};
ghost use Rattle.pst_tallies.specs.Tallies.{count_of, counts_in, IsTally, IsMoved, IsWordMoved};

use crate::rows::{is_full, is_marked, word_at, word_end};
use pst_scen::{Plan, Rows};

/// Adds a step to an entry. A sum that doesn't fit begins again at 0.
fn move_at(tally: &mut [u32], at: usize, step: u32)
    requires { at < length tally.old }
    ensures here { get_or tally.new at 0 ≡ (get_or tally.old at 0 + step) % 2 ^ 32 }
    ensures others { (m : ℕ) → m ≢ at → get_or tally.new m 0 ≡ get_or tally.old m 0 }
{
    tally[at] = tally[at].wrapping_add(step);
}

fn move_one(tally: &mut [u32], word: u64, first: u32, other: u32, step: u32)
    requires near { (first ≤ other) × (other < first + 64) }
    requires other_in { other < length tally.old }
    ensures here { IsMoved step (IsMarked word first) other (get_or tally.old other 0) (get_or tally.new other 0) }
    ensures others { (m : ℕ) → m ≢ other → get_or tally.new m 0 ≡ get_or tally.old m 0 }
{
    if is_marked(word, first, other) {
        move_at(tally, other as usize, step);
    }
}

fn move_part(tally: &mut [u32], word: u64, first: u32, end: u32, step: u32)
    requires short { end ≤ first + 64 }
    requires inside { (first ≤ end) × (end ≤ length tally.old) }
    ensures { AreChanged (IsMoved step (IsMarked word first)) tally.old tally.new first end }
{
    for other in first..end {
        move_one(tally, word, first, other, step);
    }
}

fn move_word(tally: &mut [u32], word: u64, place: usize, size: u32, step: u32)
    requires place_in { place * 64 < size }
    requires many { IsTally size tally.old }
    ensures { IsWordMoved size step (λ m. IsBitSet word (m % 64)) tally.old tally.new place }
{
    if word == 0 {
        return;
    }
    if is_full(word) {
        move_at(tally, size as usize + place, step);
        return;
    }
    let first = place as u32 * 64;
    move_part(tally, word, first, word_end(first, size), step);
}

/// Adds a step to the count of each action with which the square pairs the given one.
fn move_row(tally: &mut [u32], rows: &Rows, a: u32, step: u32)
    requires square { IsSquare rows.now }
    requires a_in { a < rows.now.size }
    requires many { IsTally rows.now.size tally.old }
    ensures { (m : ℕ) → m < rows.now.size → IsMoved step (Has rows.now a) m (count_of rows.now.size tally.old m) (count_of rows.now.size tally.new m) }
{
    let words = (rows.size as usize + 63) / 64;
    for place in 0..words {
        move_word(tally, word_at(rows, a, place), place, rows.size, step);
    }
}

/// Raises the count of each action that must come behind the given one.
fn raise_awaited(plan: &Plan, tally: &mut [u32], a: u32)
    requires a_in { a < length plan.now.groups }
    requires tally { IsTally (length plan.now.groups) tally.old }
    requires room { (m : ℕ) → m < length plan.now.groups → Has plan.now.must a m → get_or (counts_in (length plan.now.groups) tally.old) m 0 + 1 < 2 ^ 32 }
    ensures { AreRaised plan.now.must a (counts_in (length plan.now.groups) tally.old) (counts_in (length plan.now.groups) tally.new) }
{
    move_row(tally, plan.must_rows(), a, 1);
}

/// Lowers the count of each action that must come behind the given one.
pub fn lower_awaited(plan: &Plan, tally: &mut [u32], a: u32)
    requires a_in { a < length plan.now.groups }
    requires tally { IsTally (length plan.now.groups) tally.old }
    requires some { (m : ℕ) → m < length plan.now.groups → Has plan.now.must a m → 0 < get_or (counts_in (length plan.now.groups) tally.old) m 0 }
    ensures { AreLowered plan.now.must a (counts_in (length plan.now.groups) tally.old) (counts_in (length plan.now.groups) tally.new) }
{
    move_row(tally, plan.must_rows(), a, u32::MAX);
}

/// Raises the count of each action that conflicts with the given one.
pub fn raise_in_the_way(plan: &Plan, tally: &mut [u32], a: u32)
    requires a_in { a < length plan.now.groups }
    requires tally { IsTally (length plan.now.groups) tally.old }
    requires room { (m : ℕ) → m < length plan.now.groups → Has plan.now.conflict a m → get_or (counts_in (length plan.now.groups) tally.old) m 0 + 1 < 2 ^ 32 }
    ensures { AreRaised plan.now.conflict a (counts_in (length plan.now.groups) tally.old) (counts_in (length plan.now.groups) tally.new) }
{
    move_row(tally, plan.conflict_rows(), a, 1);
}

/// Lowers the count of each action that conflicts with the given one.
pub fn lower_in_the_way(plan: &Plan, tally: &mut [u32], a: u32)
    requires a_in { a < length plan.now.groups }
    requires tally { IsTally (length plan.now.groups) tally.old }
    requires some { (m : ℕ) → m < length plan.now.groups → Has plan.now.conflict a m → 0 < get_or (counts_in (length plan.now.groups) tally.old) m 0 }
    ensures { AreLowered plan.now.conflict a (counts_in (length plan.now.groups) tally.old) (counts_in (length plan.now.groups) tally.new) }
{
    move_row(tally, plan.conflict_rows(), a, u32::MAX);
}

/// Counts how many actions must come before each action, in a table of zeros.
pub fn count_awaited(plan: &Plan, tally: &mut [u32])
    requires tally { IsTally (length plan.now.groups) tally.old }
    requires none { (m : ℕ) → get_or tally.old m 0 ≡ 0 }
    ensures { AreAllAwaited plan.now (counts_in (length plan.now.groups) tally.new) }
{
    let count = plan.len();
    for act in 0..count {
        raise_awaited(plan, tally, act);
    }
}

/// Whether nothing is counted for the action.
pub fn is_none(plan: &Plan, tally: &[u32], act: u32) -> bool
    requires tally { IsTally (length plan.now.groups) tally.now }
    requires act_in { act < length plan.now.groups }
    ensures { IsTrue result ↔ get_or (counts_in (length plan.now.groups) tally.now) act 0 ≡ 0 }
{
    let own = tally[act as usize];
    let common = tally[plan.len() as usize + act as usize / 64];
    own.wrapping_add(common) == 0
}
