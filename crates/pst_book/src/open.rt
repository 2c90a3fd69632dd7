//! Which group starts, and its start.
ghost use Rattle.std.specs.Prelude.{◌≡◌, ◌↔◌, ◌+◌, ◌<◌, ◌≤◌, ◌++◌, ◌∷◌, [], ℕ, length, get_or, IsTrue, Contains};
ghost use Rattle.pst_scen.specs.Plan.{members};
ghost use Rattle.pst_scen.specs.Trace.{Started, IsHeld};
ghost use Rattle.pst_book.specs.Books.{MayJoin, AllMayJoin, AreSoMany, CanStart, AreStarted};

use crate::run::Run;

/// Whether each member of the group of that number may start.
pub(crate) fn all_may_join(run: &Run, group: u32) -> bool
    requires group_in { group < length run.now.plan.groups }
    requires number { get_or run.now.plan.groups group 0 ≡ group }
    ensures { IsTrue result ↔ AllMayJoin run.now.plan run.now.trace group }
{
    let count = run.plan().len();
    let mut act = group;
    'members: while act < count {
        if !run.may_join(act) {
            return false;
        }
        act = run.next(act);
    }
    true
}

/// The number of members of the group of that number.
pub(crate) fn count_members(run: &Run, group: u32) -> u32
    requires group_in { group < length run.now.plan.groups }
    requires number { get_or run.now.plan.groups group 0 ≡ group }
    ensures { result ≡ length (members run.now.plan.groups group) }
{
    let count = run.plan().len();
    let mut total = 0;
    let mut act = group;
    'members: while act < count {
        total += 1;
        act = run.next(act);
    }
    total
}

/// The number of idle lanes.
pub(crate) fn count_idle(run: &Run) -> u32
    ensures { AreSoMany run.now.trace run.now.lanes result }
{
    let mut count = 0;
    for lane in 0..run.lanes() {
        if !run.is_held(lane) {
            count += 1;
        }
    }
    count
}

/// Whether the group of that number can start, where so many lanes are idle.
pub(crate) fn can_start(run: &Run, group: u32, idle: u32) -> bool
    requires group_in { group < length run.now.plan.groups }
    requires idle { AreSoMany run.now.trace run.now.lanes idle }
    ensures { IsTrue result ↔ CanStart run.now.plan run.now.lanes run.now.trace group }
{
    if run.plan().group(group) != group {
        return false;
    }
    if !all_may_join(run, group) {
        return false;
    }
    count_members(run, group) <= idle
}

/// The least idle lane from a number on, or the number of lanes.
fn next_idle(run: &Run, from: u32, lanes: u32) -> u32
    requires from { from ≤ lanes }
    requires lanes { lanes ≡ run.now.lanes }
    ensures inside { (from ≤ result) × (result ≤ run.now.lanes) }
    ensures held { (l : ℕ) → from ≤ l → l < result → IsHeld run.now.trace l }
    ensures idle { result < run.now.lanes → IsHeld run.now.trace result → ⊥ }
{
    for lane in from..lanes {
        if !run.is_held(lane) {
            return lane;
        }
    }
    lanes
}

/// Starts the members of the group of that number, of which there are so many and none has
/// started, on the least idle lanes.
pub(crate) fn start(run: &mut Run, group: u32, count: u32)
    requires group_in { group < length run.old.plan.groups }
    requires number { get_or run.old.plan.groups group 0 ≡ group }
    requires many { count ≡ length (members run.old.plan.groups group) }
    requires fresh { (a : ℕ) → a < length run.old.plan.groups → get_or run.old.plan.groups a 0 ≡ group → Started run.old.trace a → ⊥ }
    requires idle { (idle : ℕ) × AreSoMany run.old.trace run.old.lanes idle × (count ≤ idle) }
    requires room { length run.old.trace + count ≤ run.old.room }
    ensures plan { run.new.plan ≡ run.old.plan }
    ensures lanes { run.new.lanes ≡ run.old.lanes }
    ensures started { AreStarted run.old.trace run.new.trace (members run.old.plan.groups group) run.old.lanes }
    ensures room { run.old.room ≤ run.new.room }
{
    let all = run.plan().len();
    let lanes = run.lanes();
    let mut left = count;
    let mut lane = 0;
    let mut act = group;
    'members: while act < all {
        let used = next_idle(run, lane, lanes);
        run.start(act, used, left > 1);
        left -= 1;
        lane = used + 1;
        act = run.next(act);
    }
    run.skip_started();
}
