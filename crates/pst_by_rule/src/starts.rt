//! Follows one block.
ghost use Rattle.std.specs.Prelude.{◌≡◌, ◌<◌, ◌↔◌, ◌++◌, ◌∷◌, [], ℕ, List, Bool, true, false, length, get_or, IsTrue};
ghost use Rattle.std.specs.Bool.{OnTrue};
ghost use Rattle.pst_scen.specs.declared.scenario.Scenario.{Scenario};
ghost use Rattle.pst_scen.specs.declared.event.Event.{Event};
ghost use Rattle.pst_scen.specs.Trace.{Runs};
ghost use Rattle.pst_scen.specs.Plans.{IsPlanOf};
ghost use Rattle.pst_order.specs.Rule.{FollowsRule};
ghost use Rattle.pst_by_rule.specs.Blocks.{block_of, IsOneBlock};
ghost use Rattle.pst_by_rule.specs.Counted.{AreCounted, AreCountedStarts, AreCountedMembers, AreCountedEnds, AreCountedAll, DidStart};
ghost use Rattle.pst_by_rule.specs.Followed.{AreStarts};

use crate::blocks::act_of;
use crate::tables::{free_lane, may_join, note_end, note_start};
use pst_order::{groups_are_whole, whole_is_sound};
use pst_scen::{Event, Plan};

/// Follows the start of an action, where it may start and the event starts it on a free lane.
fn follow_start(
    plan: &Plan,
    event: Event,
    act: u32,
    started: &mut [bool],
    awaited: &[u32],
    in_the_way: &mut [u32],
    holders: &mut [Option<u32>],
) -> bool
    requires act_in { act < length plan.now.groups }
    requires counted { AreCountedStarts plan.now started.old awaited.now in_the_way.old holders.old }
    ensures { (trace : List Event) (ended : List Bool) (next : List ℕ) → AreCounted plan.now trace started.old ended awaited.now in_the_way.old next holders.old → OnTrue result (DidStart plan.now trace event act started.new ended awaited.now in_the_way.new next holders.new) }
{
    if !may_join(plan, started, awaited, in_the_way, act) {
        return false;
    }
    let Some(lane) = free_lane(event, act, holders) else {
        return false;
    };
    note_start(plan, act, lane, started, in_the_way, holders);
    true
}

/// Follows the starts of a block, where they are those of one group, ascending. Each member is
/// looked at behind those before it.
fn follow_starts(
    plan: &Plan,
    part: &[Event],
    started: &mut [bool],
    awaited: &[u32],
    in_the_way: &mut [u32],
    next: &[u32],
    holders: &mut [Option<u32>],
) -> bool
    requires some { 0 < length part.now }
    requires counted { AreCountedMembers plan.now started.old awaited.now in_the_way.old next.now holders.old }
    ensures { (trace : List Event) (ended : List Bool) → AreCounted plan.now trace started.old ended awaited.now in_the_way.old next.now holders.old → OnTrue result (AreStarts plan.now trace part.now × AreCounted plan.now (trace ++ part.now) started.new ended awaited.now in_the_way.new next.now holders.new) }
{
    let count = plan.len();
    let group = act_of(part[0]);
    if group >= count {
        return false;
    }
    if plan.group(group) != group {
        return false;
    }
    let mut act = group;
    for i in 0..part.len() {
        if act >= count {
            return false;
        }
        if !follow_start(plan, part[i], act, started, awaited, in_the_way, holders) {
            return false;
        }
        act = next[act as usize];
    }
    if act < count {
        return false;
    }
    true
}

/// Whether the action has started and hasn't ended.
fn runs(plan: &Plan, started: &[bool], ended: &[bool], act: u32) -> bool
    requires many_started { length started.now ≡ length plan.now.groups }
    requires many_ended { length ended.now ≡ length plan.now.groups }
    ensures { IsTrue result ↔ (act < length plan.now.groups) × (get_or started.now act false ≡ true) × (get_or ended.now act false ≡ false) }
{
    if act >= plan.len() {
        return false;
    }
    if !started[act as usize] {
        return false;
    }
    !ended[act as usize]
}

/// Follows the end of an action, where it runs.
fn follow_end(
    plan: &Plan,
    act: u32,
    started: &[bool],
    ended: &mut [bool],
    awaited: &mut [u32],
    in_the_way: &mut [u32],
    holders: &mut [Option<u32>],
) -> bool
    requires counted { AreCountedEnds plan.now started.now ended.old awaited.old in_the_way.old holders.old }
    ensures { (trace : List Event) (next : List ℕ) → AreCounted plan.now trace started.now ended.old awaited.old in_the_way.old next holders.old → OnTrue result (Runs trace act × AreCounted plan.now (trace ++ Event.End act ∷ []) started.now ended.new awaited.new in_the_way.new next holders.new) }
{
    if !runs(plan, started, ended, act) {
        return false;
    }
    note_end(plan, act, ended, awaited, in_the_way, holders);
    true
}

/// Follows a block, where it keeps the core's rule on 16 lanes.
pub(crate) fn follow_block(
    plan: &Plan,
    part: &[Event],
    started: &mut [bool],
    ended: &mut [bool],
    awaited: &mut [u32],
    in_the_way: &mut [u32],
    next: &[u32],
    holders: &mut [Option<u32>],
) -> bool
    requires some { 0 < length part.now }
    requires one { IsOneBlock part.now }
    requires counted { AreCountedAll plan.now started.old ended.old awaited.old in_the_way.old next.now holders.old }
    ensures { (trace : List Event) → AreCounted plan.now trace started.old ended.old awaited.old in_the_way.old next.now holders.old → OnTrue result (((s : Scenario) → IsPlanOf s plan.now → FollowsRule s 16 trace (block_of part.now)) × AreCounted plan.now (trace ++ part.now) started.new ended.new awaited.new in_the_way.new next.now holders.new) }
{
    groups_are_whole();
    whole_is_sound();
    match part[0] {
        Event::Start { .. } => {
            follow_starts(plan, part, started, awaited, in_the_way, next, holders)
        }
        Event::End { act } => follow_end(plan, act, started, ended, awaited, in_the_way, holders),
    }
}
