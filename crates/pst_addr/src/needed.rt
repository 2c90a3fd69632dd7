//! Which asks may be met by later ones.
//!
//! The bytes of the others are in nobody's way any more. The asks are gone through from the last to
//! the first, with a set of the actions that ask later.
ghost use Rattle.std.specs.Prelude.{◌≡◌, ◌<◌, ◌+◌, ◌/◌, ℕ, length, IfOk, IsBitSet};
ghost use Rattle.std.specs.Bool.{OnFalse};
ghost use Rattle.pst_scen.specs.Rows.{row_words, IsSquare, Has};
ghost use Rattle.pst_square.specs.Marks.{IsMarked};
ghost use Rattle.pst_addr.specs.Places.{Meet, AreAsks};
ghost use Rattle.pst_addr.specs.Columns.{AreMarked, AreMarkedFrom};

use crate::ask::Ask;
use crate::columns::word_at;
use pst_base::NoMemory;
use pst_scen::{Plan, Rows};
use pst_square::{mark, no_marks};
use std::alloc::Global;

/// Whether the first word has a bit that the second one lacks.
fn has_more(word: u64, other: u64) -> bool
    ensures { OnFalse result ((k : ℕ) → IsBitSet word k → IsBitSet other k) }
{
    let both = other | word;
    if both == other {
        return false;
    }
    true
}

/// Whether the set has an action that the row lacks.
fn is_beyond(set: &[u64], rows: &Rows, a: u32) -> bool
    requires square { IsSquare rows.now }
    requires a_in { a < rows.now.size }
    requires many { length set.now ≡ row_words rows.now.size }
    ensures { OnFalse result ((m : ℕ) → m / 64 < length set.now → IsMarked set.now m → Has rows.now a m) }
{
    for place in 0..set.len() {
        if has_more(set[place], word_at(rows, a, place)) {
            return true;
        }
    }
    false
}

/// Whether an action of the set may meet the given one: where it is that one, or needn't wait for its
/// end.
fn may_be_met(set: &[u64], plan: &Plan, a: u32) -> bool
    requires a_in { a < length plan.now.groups }
    requires many { length set.now ≡ row_words (length plan.now.groups) }
    ensures { OnFalse result ((m : ℕ) → m / 64 < length set.now → IsMarked set.now m → Meet plan.now m a → ⊥) }
{
    let rows = plan.must_rows();
    if rows.has(a, a) {
        return true;
    }
    is_beyond(set, rows, a)
}

/// Says of the ask of that number whether it may be met later, and adds its action to those that ask
/// later.
fn look_at(plan: &Plan, asks: &[Ask], set: &mut [u64], marks: &mut [bool], at: usize)
    requires asks { AreAsks plan.now asks.now }
    requires at_in { at < length asks.now }
    requires seen { AreMarkedFrom plan.now asks.now (at + 1) set.old marks.old }
    ensures { AreMarkedFrom plan.now asks.now at set.new marks.new }
{
    let action = asks[at].action;
    marks[at] = may_be_met(set, plan, action);
    mark(set, action);
}

/// Says so of all asks.
fn look_back(plan: &Plan, asks: &[Ask], set: &mut [u64], marks: &mut [bool])
    requires asks { AreAsks plan.now asks.now }
    requires none { AreMarkedFrom plan.now asks.now (length asks.now) set.old marks.old }
    ensures { AreMarked plan.now asks.now marks.new }
{
    let mut at = asks.len();
    'asks: while at > 0 {
        at -= 1;
        look_at(plan, asks, set, marks, at);
    }
}

/// So many marks.
fn marks_of(alloc: Global, count: usize) -> Result<Vec<bool>, NoMemory>
    ensures { IfOk result (λ marks. length marks.items ≡ count) }
{
    Ok(Vec::from_elem(alloc, true, count)?)
}

/// For each ask whether a later one may meet it. One that no later ask meets may be marked, too.
pub(crate) fn needed_asks(alloc: Global, plan: &Plan, asks: &[Ask]) -> Result<Vec<bool>, NoMemory>
    requires asks { AreAsks plan.now asks.now }
    ensures { IfOk result (λ marks. AreMarked plan.now asks.now marks.items) }
{
    let mut set = no_marks(alloc, plan.len())?;
    let mut marks = marks_of(alloc, asks.len())?;
    look_back(plan, asks, &mut set, &mut marks);
    Ok(marks)
}
