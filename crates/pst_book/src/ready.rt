//! Which groups may be ready to start.
//!
//! A book keeps a mark for each block of 64 actions. Where a block isn't marked, no group whose
//! number lies in it is ready, so a search for a group that can start passes it at once. A block is
//! marked where an end leaves an action that may join, and no longer where a search finds none.
ghost use Rattle.std.specs.Prelude.{◌≡◌, ◌↔◌, ◌+◌, ◌*◌, ◌/◌, ◌%◌, ◌<◌, ◌≤◌, ℕ, length, get_or, replicate, false, true, IfOk, IsBitSet, IsTrue, MatchOption};
ghost use Rattle.pst_scen.specs.Rows.{IsSquare, Has, row_words};
ghost use Rattle.pst_book.specs.Books.{AreSoMany, CanStart, NoneStarts, StartsFirst};
ghost use Rattle.pst_book.specs.Parts.{IsMarked};
ghost use Rattle.pst_book.specs.Ready.{AreMarked, AreReady, IsReadyGroup, NoneIn, StartsIn};

use crate::open::{all_may_join, can_start, count_idle};
use crate::rows::{is_marked, next_word, word_at, word_end};
use crate::run::Run;
use pst_base::NoMemory;
use pst_scen::Rows;
use std::alloc::Global;

/// A mark for each block, all of them set.
pub(crate) fn all_marked(alloc: Global, count: u32) -> Result<Vec<bool>, NoMemory>
    ensures { IfOk result (λ v. v.items ≡ replicate (row_words count) true) }
{
    Ok(Vec::from_elem(alloc, true, (count as usize + 63) / 64)?)
}

/// Marks the block of the action's group, if the word's bit says so and the action may join.
fn mark_one(run: &Run, marks: &mut [bool], word: u64, first: u32, other: u32)
    requires near { (first ≤ other) × (other < first + 64) }
    requires other_in { other < length run.now.plan.groups }
    requires many { length marks.old ≡ row_words (length run.now.plan.groups) }
    ensures { AreMarked run.now.plan run.now.trace (λ a. (a ≡ other) × IsMarked word first a) marks.old marks.new }
{
    if !is_marked(word, first, other) {
        return;
    }
    if !run.may_join(other) {
        return;
    }
    let group = run.plan().group(other);
    marks[group as usize / 64] = true;
}

fn mark_part(run: &Run, marks: &mut [bool], word: u64, first: u32, end: u32)
    requires short { end ≤ first + 64 }
    requires inside { (first ≤ end) × (end ≤ length run.now.plan.groups) }
    requires many { length marks.old ≡ row_words (length run.now.plan.groups) }
    ensures { AreMarked run.now.plan run.now.trace (λ a. (first ≤ a) × (a < end) × IsMarked word first a) marks.old marks.new }
{
    for other in first..end {
        mark_one(run, marks, word, first, other);
    }
}

fn mark_word(run: &Run, marks: &mut [bool], word: u64, place: usize, size: u32)
    requires place_in { place * 64 < size }
    requires size { size ≡ length run.now.plan.groups }
    requires many { length marks.old ≡ row_words (length run.now.plan.groups) }
    ensures { AreMarked run.now.plan run.now.trace (λ a. (a < size) × (a / 64 ≡ place) × IsBitSet word (a % 64)) marks.old marks.new }
{
    let first = place as u32 * 64;
    mark_part(run, marks, word, first, word_end(first, size));
}

/// Marks the block of the group of each action that the square pairs with the given one, if it may
/// join.
pub(crate) fn mark_row(run: &Run, marks: &mut [bool], rows: &Rows, a: u32)
    requires square { IsSquare rows.now }
    requires size { rows.now.size ≡ length run.now.plan.groups }
    requires a_in { a < rows.now.size }
    requires many { length marks.old ≡ row_words (length run.now.plan.groups) }
    ensures { AreMarked run.now.plan run.now.trace (λ m. (m < rows.now.size) × Has rows.now a m) marks.old marks.new }
{
    let words = (rows.size as usize + 63) / 64;
    let mut place = next_word(rows, a, 0, words);
    'words: while place < words {
        mark_word(run, marks, word_at(rows, a, place), place, rows.size);
        place = next_word(rows, a, place + 1, words);
    }
}

/// The least group from a number on, before another one, that can start, where so many lanes are
/// idle.
fn least_in(run: &Run, first: u32, end: u32, idle: u32) -> Option<u32>
    requires inside { (first ≤ end) × (end ≤ length run.now.plan.groups) }
    requires idle { AreSoMany run.now.trace run.now.lanes idle }
    ensures { MatchOption result (NoneIn run.now.plan run.now.lanes run.now.trace first end) (StartsIn run.now.plan run.now.lanes run.now.trace first end) }
{
    for group in first..end {
        if can_start(run, group, idle) {
            return Some(group);
        }
    }
    None
}

/// Whether the number is a group's, and its members may join.
fn is_ready(run: &Run, group: u32) -> bool
    requires { group < length run.now.plan.groups }
    ensures { IsTrue result ↔ IsReadyGroup run.now.plan run.now.trace group }
{
    if run.plan().group(group) != group {
        return false;
    }
    all_may_join(run, group)
}

/// Whether a group from a number on, before another one, is ready.
fn is_any_ready(run: &Run, first: u32, end: u32) -> bool
    requires inside { (first ≤ end) × (end ≤ length run.now.plan.groups) }
    ensures { result ≡ false → (group : ℕ) → first ≤ group → group < end → IsReadyGroup run.now.plan run.now.trace group → ⊥ }
{
    for group in first..end {
        if is_ready(run, group) {
            return true;
        }
    }
    false
}

/// The least group of a block that can start. Where none can, the block's mark stays only if a
/// group of it is ready.
fn look_at(run: &Run, marks: &mut [bool], place: usize, idle: u32) -> Option<u32>
    requires ready { AreReady run.now.plan run.now.trace marks.old }
    requires place_in { place * 64 < length run.now.plan.groups }
    requires idle { AreSoMany run.now.trace run.now.lanes idle }
    ensures ready { AreReady run.now.plan run.now.trace marks.new }
    ensures found { MatchOption result ((group : ℕ) → place * 64 ≤ group → group < place * 64 + 64 → group < length run.now.plan.groups → CanStart run.now.plan run.now.lanes run.now.trace group → ⊥) (StartsIn run.now.plan run.now.lanes run.now.trace (place * 64) (length run.now.plan.groups)) }
{
    if !marks[place] {
        return None;
    }
    let size = run.plan().len();
    let first = place as u32 * 64;
    let end = word_end(first, size);
    if let Some(group) = least_in(run, first, end, idle) {
        return Some(group);
    }
    marks[place] = is_any_ready(run, first, end);
    None
}

/// The least group that can start.
pub(crate) fn candidate(run: &Run, marks: &mut [bool]) -> Option<u32>
    requires ready { AreReady run.now.plan run.now.trace marks.old }
    ensures ready { AreReady run.now.plan run.now.trace marks.new }
    ensures found { MatchOption result (NoneStarts run.now.plan run.now.lanes run.now.trace) (StartsFirst run.now.plan run.now.lanes run.now.trace) }
{
    let idle = count_idle(run);
    let _size = run.plan().len();
    if idle == 0 {
        return None;
    }
    for place in 0..marks.len() {
        if let Some(group) = look_at(run, marks, place, idle) {
            return Some(group);
        }
    }
    None
}
