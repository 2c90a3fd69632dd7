//! What one event makes of the tables.
ghost use Rattle.std.specs.Prelude.{◌≡◌, ◌↔◌, ◌+◌, ◌<◌, ◌≤◌, ℕ, length, get_or, slice_set, true, false, IsTrue, IfSome};
ghost use Rattle.pst_scen.specs.Rows.{Has};
ghost use Rattle.pst_book.specs.Tables.{AreRaised, AreLowered, AreFreed};
ghost use Rattle.pst_tallies.specs.Tallies.{counts_in, IsTally};
ghost use Rattle.pst_by_rule.specs.Counted.{StartsFreely};

use pst_book::free;
use pst_scen::{Event, Plan};
use pst_tallies::{is_none, lower_awaited, lower_in_the_way, raise_in_the_way};

/// Whether the action may start, as to what started, ended and runs.
pub(crate) fn may_join(
    plan: &Plan,
    started: &[bool],
    awaited: &[u32],
    in_the_way: &[u32],
    act: u32,
) -> bool
    requires act_in { act < length plan.now.groups }
    requires started_in { act < length started.now }
    requires awaited { IsTally (length plan.now.groups) awaited.now }
    requires in_the_way { IsTally (length plan.now.groups) in_the_way.now }
    ensures { IsTrue result ↔ (get_or started.now act false ≡ false) × (get_or (counts_in (length plan.now.groups) awaited.now) act 0 ≡ 0) × (get_or (counts_in (length plan.now.groups) in_the_way.now) act 0 ≡ 0) }
{
    if started[act as usize] {
        return false;
    }
    if !is_none(plan, awaited, act) {
        return false;
    }
    is_none(plan, in_the_way, act)
}

/// Whether the lane is free.
fn is_free(holders: &[Option<u32>], lane: u32) -> bool
    ensures { IsTrue result ↔ (lane < length holders.now) × (get_or holders.now lane None ≡ None) }
{
    if lane as usize >= holders.len() {
        return false;
    }
    holders[lane as usize].is_none()
}

/// The lane on which the event starts the action, where it does, and the lane is free.
pub(crate) fn free_lane(event: Event, act: u32, holders: &[Option<u32>]) -> Option<u32>
    ensures { IfSome result (λ lane. StartsFreely event act lane holders.now) }
{
    match event {
        Event::Start {
            act: named,
            lane,
            ..
        } => {
            if named == act && is_free(holders, lane) {
                Some(lane)
            } else {
                None
            }
        }
        Event::End { .. } => None,
    }
}

/// Notes the start of an action on a lane.
pub(crate) fn note_start(
    plan: &Plan,
    act: u32,
    lane: u32,
    started: &mut [bool],
    in_the_way: &mut [u32],
    holders: &mut [Option<u32>],
)
    requires act_in { act < length plan.now.groups }
    requires lane_in { lane < length holders.old }
    requires many_started { length started.old ≡ length plan.now.groups }
    requires in_the_way { IsTally (length plan.now.groups) in_the_way.old }
    requires room { (m : ℕ) → m < length plan.now.groups → Has plan.now.conflict act m → get_or (counts_in (length plan.now.groups) in_the_way.old) m 0 + 1 ≤ length plan.now.groups }
    ensures started { started.new ≡ slice_set started.old act true }
    ensures in_the_way { AreRaised plan.now.conflict act (counts_in (length plan.now.groups) in_the_way.old) (counts_in (length plan.now.groups) in_the_way.new) }
    ensures holders { holders.new ≡ slice_set holders.old lane (Some act) }
{
    let inside = act < plan.len();
    prove!(inside);
    raise_in_the_way(plan, in_the_way, act);
    started[act as usize] = true;
    holders[lane as usize] = Some(act);
}

/// Notes the end of an action.
pub(crate) fn note_end(
    plan: &Plan,
    act: u32,
    ended: &mut [bool],
    awaited: &mut [u32],
    in_the_way: &mut [u32],
    holders: &mut [Option<u32>],
)
    requires act_in { act < length plan.now.groups }
    requires many_ended { length ended.old ≡ length plan.now.groups }
    requires awaited { IsTally (length plan.now.groups) awaited.old }
    requires in_the_way { IsTally (length plan.now.groups) in_the_way.old }
    requires some_awaited { (m : ℕ) → m < length plan.now.groups → Has plan.now.must act m → 0 < get_or (counts_in (length plan.now.groups) awaited.old) m 0 }
    requires some_in_the_way { (m : ℕ) → m < length plan.now.groups → Has plan.now.conflict act m → 0 < get_or (counts_in (length plan.now.groups) in_the_way.old) m 0 }
    ensures ended { ended.new ≡ slice_set ended.old act true }
    ensures awaited { AreLowered plan.now.must act (counts_in (length plan.now.groups) awaited.old) (counts_in (length plan.now.groups) awaited.new) }
    ensures in_the_way { AreLowered plan.now.conflict act (counts_in (length plan.now.groups) in_the_way.old) (counts_in (length plan.now.groups) in_the_way.new) }
    ensures holders { AreFreed act holders.old holders.new }
{
    lower_awaited(plan, awaited, act);
    lower_in_the_way(plan, in_the_way, act);
    free(holders, act);
    ended[act as usize] = true;
}
