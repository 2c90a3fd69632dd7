//! Which lane runs which action.
//!
//! Along the serial order the members of each group, ascending, get the lanes with the fewest actions
//! so far, ascending by that number and then by lane.
ghost use Rattle.std.specs.Prelude.{◌≡◌, ◌↔◌, ◌⊎◌, ◌+◌, ◌^◌, ◌≤◌, ◌<◌, ℕ, length, get_or, slice_set, [], IfOk, OnOk, IsTrue, true, false};
ghost use Rattle.pst_scen.specs.Plan.{widest, members};
ghost use Rattle.pst_book.specs.Tables.{AreNext};
ghost use Rattle.pst_programs.specs.Serial.{IsSerial};
ghost use Rattle.pst_programs.specs.Lanes.{Deals};
ghost use Rattle.pst_static.specs.Loads.{IsFirstFree, AreLoads, IsDealtOut};

use crate::tables::marks;
use pst_base::NoMemory;
use pst_scen::Plan;
use std::alloc::Global;

/// Whether a lane isn't used, and has fewer actions than the best so far, if there is one.
fn is_better(loads: &[usize], used: &[bool], lane: usize, best: usize) -> bool
    requires many { length loads.now ≡ length used.now }
    requires lane_in { lane < length used.now }
    requires best_in { best ≤ length used.now }
    ensures { IsTrue result ↔ ((get_or used.now lane false ≡ false) × ((length used.now ≤ best) ⊎ (get_or loads.now lane 0 < get_or loads.now best 0))) }
{
    if used[lane] {
        return false;
    }
    best == used.len() || loads[lane] < loads[best]
}

/// The better of a lane and the best of the lanes before.
fn better_of(loads: &[usize], used: &[bool], lane: usize, best: usize) -> usize
    requires many { length loads.now ≡ length used.now }
    requires lane_in { lane < length used.now }
    requires best_in { best ≤ length used.now }
    requires low { best < length used.now → best < lane }
    requires first { IsFirstFree loads.now used.now lane best }
    ensures inside { result ≤ length used.now }
    ensures low { result < length used.now → result < lane + 1 }
    ensures first { IsFirstFree loads.now used.now (lane + 1) result }
{
    if is_better(loads, used, lane, best) {
        return lane;
    }
    best
}

/// The lane with the fewest actions of those that aren't used, the least of these, or the number of
/// lanes where all are used.
fn first_free(loads: &[usize], used: &[bool]) -> usize
    requires many { length loads.now ≡ length used.now }
    ensures inside { result ≤ length used.now }
    ensures first { IsFirstFree loads.now used.now (length used.now) result }
{
    let lanes = used.len();
    let mut best = lanes;
    for lane in 0..lanes {
        best = better_of(loads, used, lane, best);
    }
    best
}

/// Marks no lane as used.
fn clear(used: &mut [bool])
    ensures many { length used.new ≡ length used.old }
    ensures none { (l : ℕ) → l < length used.old → get_or used.new l false ≡ false }
{
    for lane in 0..used.len() {
        used[lane] = false;
    }
}

/// Gives a lane one action more.
fn lend(loads: &mut [usize], used: &mut [bool], lane: usize)
    requires lane_in { lane < length used.old }
    requires many { length loads.old ≡ length used.old }
    requires room { get_or loads.old lane 0 + 1 < 2 ^ 64 }
    ensures loads { loads.new ≡ slice_set loads.old lane (get_or loads.old lane 0 + 1) }
    ensures used { used.new ≡ slice_set used.old lane true }
{
    loads[lane] += 1;
    used[lane] = true;
}

/// Deals out the members of the group of that number.
fn deal_group(
    plan: &Plan,
    next: &[u32],
    group: u32,
    loads: &mut [usize],
    used: &mut [bool],
    dealt: &mut Vec<(u32, u32)>,
) -> Result<(), NoMemory>
    requires group_in { group < length plan.now.groups }
    requires number { get_or plan.now.groups group 0 ≡ group }
    requires next { AreNext plan.now.groups next.now }
    requires few { length used.old ≤ 16 }
    requires wide { length (members plan.now.groups group) ≤ length used.old }
    requires loads { AreLoads (length used.old) dealt.old.items loads.old }
    ensures many { length used.new ≡ length used.old }
    ensures loads { OnOk result (AreLoads (length used.old) dealt.new.items loads.new) }
    ensures dealt { OnOk result (IsDealtOut plan.now (length used.old) group dealt.old.items dealt.new.items) }
{
    clear(used);
    let count = plan.len();
    let mut act = group;
    'members: while act < count {
        let lane = first_free(loads, used);
        dealt.push((act, lane as u32))?;
        lend(loads, used, lane);
        act = next[act as usize];
    }
    Ok(())
}

/// Deals out the members of one group after another.
fn deal_all(
    plan: &Plan,
    next: &[u32],
    order: &[u32],
    loads: &mut [usize],
    used: &mut [bool],
    dealt: &mut Vec<(u32, u32)>,
) -> Result<(), NoMemory>
    requires next { AreNext plan.now.groups next.now }
    requires serial { IsSerial plan.now order.now }
    requires few { length used.old ≤ 16 }
    requires wide { widest plan.now.groups ≤ length used.old }
    requires loads { AreLoads (length used.old) dealt.old.items loads.old }
    requires none { dealt.old.items ≡ [] }
    ensures { OnOk result (Deals plan.now (length used.old) [] order.now dealt.new.items) }
{
    for place in 0..order.len() {
        deal_group(plan, next, order[place], loads, used, dealt)?;
    }
    Ok(())
}

/// The actions in the serial order, each with its lane.
pub(crate) fn deal(
    alloc: Global,
    plan: &Plan,
    next: &[u32],
    order: &[u32],
    lanes: u32,
) -> Result<Vec<(u32, u32)>, NoMemory>
    requires next { AreNext plan.now.groups next.now }
    requires serial { IsSerial plan.now order.now }
    requires few { lanes ≤ 16 }
    requires wide { widest plan.now.groups ≤ lanes }
    ensures { IfOk result (λ dealt. Deals plan.now lanes [] order.now dealt.items) }
{
    let mut loads = Vec::from_elem(alloc, 0usize, lanes as usize)?;
    let mut used = marks(alloc, lanes as usize)?;
    let mut dealt = Vec::with_capacity(alloc, plan.len() as usize)?;
    deal_all(plan, next, order, &mut loads, &mut used, &mut dealt)?;
    Ok(dealt)
}
