//! Which action of a lane each action needs last.
//!
//! As an action is dealt to a lane its place is written into the lane's table, at each action that a
//! row of one of the two squares pairs it with.
ghost use Rattle.std.specs.Prelude.{◌≡◌, ◌≢◌, ◌+◌, ◌*◌, ◌%◌, ◌<◌, ◌≤◌, ℕ, length, get_or, Some, slice_get, IsBitSet};
ghost use Rattle.std.specs.Global.{Vec};
ghost use Rattle.pst_scen.specs.Rows.{IsSquare};
ghost use Rattle.pst_book.specs.Parts.{IsMarked, AreChanged, AreWordChanged};
ghost use Rattle.pst_static.specs.Stamps.{IsStamped, AreStamped, AreStampedByPlan, IsChangedAt};

use crate::rows::next_word;
use pst_scen::{Plan, Rows};
use pst_tallies::{is_full, is_marked, word_at, word_end};

fn stamp_one(places: &mut [u32], word: u64, first: u32, other: u32, value: u32)
    requires near { (first ≤ other) × (other < first + 64) }
    requires other_in { other < length places.old }
    ensures here { IsStamped value (IsMarked word first) other (get_or places.old other 0) (get_or places.new other 0) }
    ensures others { (m : ℕ) → m ≢ other → get_or places.new m 0 ≡ get_or places.old m 0 }
{
    if is_marked(word, first, other) {
        places[other as usize] = value;
    }
}

fn stamp_part(places: &mut [u32], word: u64, first: u32, end: u32, value: u32)
    requires short { end ≤ first + 64 }
    requires inside { (first ≤ end) × (end ≤ length places.old) }
    ensures { AreChanged (IsStamped value (IsMarked word first)) places.old places.new first end }
{
    for other in first..end {
        stamp_one(places, word, first, other, value);
    }
}

/// Writes the value at each action of a part.
fn stamp_all(places: &mut [u32], first: u32, end: u32, value: u32)
    requires { (first ≤ end) × (end ≤ length places.old) }
    ensures { AreChanged (λ m x y. y ≡ value) places.old places.new first end }
{
    for other in first..end {
        places[other as usize] = value;
    }
}

fn stamp_word(places: &mut [u32], word: u64, place: usize, size: u32, value: u32)
    requires place_in { place * 64 < size }
    requires many { length places.old ≡ size }
    ensures { AreWordChanged (IsStamped value (λ m. IsBitSet word (m % 64))) places.old places.new place }
{
    let first = place as u32 * 64;
    let end = word_end(first, size);
    if is_full(word) {
        stamp_all(places, first, end, value);
        return;
    }
    stamp_part(places, word, first, end, value);
}

/// Writes a value at each action with which the square pairs the given one.
fn stamp(places: &mut [u32], rows: &Rows, a: u32, value: u32)
    requires square { IsSquare rows.now }
    requires a_in { a < rows.now.size }
    requires many { length places.old ≡ rows.now.size }
    ensures { AreStamped rows.now a value places.old places.new }
{
    let words = (rows.size as usize + 63) / 64;
    let mut place = next_word(rows, a, 0, words);
    'words: while place < words {
        stamp_word(places, word_at(rows, a, place), place, rows.size, value);
        place = next_word(rows, a, place + 1, words);
    }
}

/// Writes a value at each action with which a square of the plan pairs the given one.
fn stamp_by_plan(places: &mut [u32], plan: &Plan, a: u32, value: u32)
    requires a_in { a < length plan.now.groups }
    requires many { length places.old ≡ length plan.now.groups }
    ensures { AreStampedByPlan plan.now a value places.old places.new }
{
    stamp(places, plan.must_rows(), a, value);
    stamp(places, plan.conflict_rows(), a, value);
}

/// The same in the table of a lane.
pub(crate) fn stamp_lane(latest: &mut [Vec<u32>], plan: &Plan, lane: usize, a: u32, value: u32)
    requires lane_in { lane < length latest.old }
    requires a_in { a < length plan.now.groups }
    requires many { (row : Vec ℕ) → slice_get latest.old lane ≡ Some row → length row.items ≡ length plan.now.groups }
    ensures { IsChangedAt (Vec ℕ) (λ x y. AreStampedByPlan plan.now a value x.items y.items) lane latest.old latest.new }
{
    stamp_by_plan(&mut latest[lane], plan, a, value);
}
