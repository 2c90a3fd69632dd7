//! Tables of a run, in slices.
//!
//! A run keeps them in memory that it reserved. A judge of a trace keeps the same tables where it
//! likes.
ghost use Rattle.std.specs.Prelude.{◌≡◌, ◌≢◌, ◌<◌, ℕ, length, get_or};
ghost use Rattle.pst_book.specs.Tables.{AreNext, AreAllAwaited, AreFreed};

use crate::rows::raise;
use pst_scen::Plan;

/// Fills the table of the next action of the same group, or the number of actions, for each action.
/// The second table is worked with; each of its entries is the number of actions.
pub fn fill_next(plan: &Plan, next: &mut [u32], seen: &mut [u32])
    requires many_next { length next.old ≡ length plan.now.groups }
    requires many_seen { length seen.old ≡ length plan.now.groups }
    requires none_seen { (g : ℕ) → g < length plan.now.groups → get_or seen.old g 0 ≡ length plan.now.groups }
    ensures { AreNext plan.now.groups next.new }
{
    let count = plan.len();
    let mut left = count;
    'acts: while left > 0 {
        left -= 1;
        let group = plan.group(left) as usize;
        next[left as usize] = seen[group];
        seen[group] = left;
    }
}

/// Counts how many actions must come before each action, in a table of zeros.
pub fn count_awaited(plan: &Plan, awaited: &mut [u32])
    requires many { length awaited.old ≡ length plan.now.groups }
    requires none { (a : ℕ) → a < length plan.now.groups → get_or awaited.old a 0 ≡ 0 }
    ensures { AreAllAwaited plan.now awaited.new }
{
    let count = plan.len();
    let must = plan.must_rows();
    for act in 0..count {
        raise(awaited, must, act);
    }
}

fn free_one(holders: &mut [Option<u32>], act: u32, lane: usize)
    requires { lane < length holders.old }
    ensures freed { get_or holders.old lane None ≡ Some act → get_or holders.new lane None ≡ None }
    ensures same { get_or holders.old lane None ≢ Some act → get_or holders.new lane None ≡ get_or holders.old lane None }
    ensures others { (l : ℕ) → l ≢ lane → get_or holders.new l None ≡ get_or holders.old l None }
{
    if holders[lane] == Some(act) {
        holders[lane] = None;
    }
}

/// Frees the lanes that the action holds.
pub fn free(holders: &mut [Option<u32>], act: u32)
    ensures { AreFreed act holders.old holders.new }
{
    for lane in 0..holders.len() {
        free_one(holders, act, lane);
    }
}
