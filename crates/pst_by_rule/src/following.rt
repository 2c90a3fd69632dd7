//! Follows a trace.
ghost use Rattle.std.specs.Prelude.{◌≡◌, ◌≤◌, ◌+◌, [], length, replicate, false};
ghost use Rattle.pst_scen.specs.declared.scenario.Scenario.{Scenario};
ghost use Rattle.pst_scen.specs.Plans.{IsPlanOf};
ghost use Rattle.pst_scen.specs.Rows.{row_words};
ghost use Rattle.pst_scen.specs.Judging.{AreWholeBlocks};
ghost use Rattle.pst_by_rule.specs.Counted.{AreCounted};
ghost use Rattle.pst_by_rule.specs.Followed.{AreFollowed};

use crate::blocks::{behind, first_block, front};
use crate::starts::follow_block;
use pst_book::fill_next;
use pst_scen::{Event, Plan};
use pst_tallies::count_awaited;

/// The number of actions that have places in the tables.
const COUNTED: usize = 16384;

/// The number of their places in a tally, where each 64 of them have one more.
const TALLIED: usize = COUNTED + COUNTED / 64;

/// The number of lanes that have places in the tables.
const LANES: usize = 16;

/// How much of a trace was followed: so many events, which are so many blocks.
#[derive(Clone, Copy, Debug, PartialEq, Eq)]
pub struct Followed {
    pub events: usize,
    pub blocks: usize,
}

/// Follows the events from the first one on, with tables of the empty trace.
fn follow_counted(
    plan: &Plan,
    events: &[Event],
    started: &mut [bool],
    ended: &mut [bool],
    awaited: &mut [u32],
    in_the_way: &mut [u32],
    next: &[u32],
    holders: &mut [Option<u32>],
) -> Followed
    requires blocks { AreWholeBlocks events.now }
    requires counted { AreCounted plan.now [] started.old ended.old awaited.old in_the_way.old next.now holders.old }
    ensures { (s : Scenario) → IsPlanOf s plan.now → AreFollowed s events.now result.events result.blocks }
{
    let mut first = 0;
    let mut blocks = 0;
    'followed: while first < events.len() {
        let rest = behind(events, first);
        let count = first_block(rest);
        let part = front(rest, count);
        if !follow_block(
            plan, part, started, ended, awaited, in_the_way, next, holders,
        ) {
            return Followed {
                events: first,
                blocks,
            };
        }
        first += count;
        blocks += 1;
    }
    Followed {
        events: first,
        blocks,
    }
}

/// Makes the tables of the empty trace out of empty ones, and follows the events.
fn follow_with(
    plan: &Plan,
    events: &[Event],
    started: &mut [bool],
    ended: &mut [bool],
    awaited: &mut [u32],
    in_the_way: &mut [u32],
    next: &mut [u32],
    seen: &mut [u32],
    holders: &mut [Option<u32>],
) -> Followed
    requires blocks { AreWholeBlocks events.now }
    requires started { started.old ≡ replicate (length plan.now.groups) false }
    requires ended { ended.old ≡ replicate (length plan.now.groups) false }
    requires awaited { awaited.old ≡ replicate (length plan.now.groups + row_words (length plan.now.groups)) 0 }
    requires in_the_way { in_the_way.old ≡ replicate (length plan.now.groups + row_words (length plan.now.groups)) 0 }
    requires next { length next.old ≡ length plan.now.groups }
    requires seen { seen.old ≡ replicate (length plan.now.groups) (length plan.now.groups) }
    requires holders { holders.old ≡ replicate 16 None }
    ensures { (s : Scenario) → IsPlanOf s plan.now → AreFollowed s events.now result.events result.blocks }
{
    fill_next(plan, next, seen);
    count_awaited(plan, awaited);
    follow_counted(
        plan, events, started, ended, awaited, in_the_way, next, holders,
    )
}

/// Follows the first blocks of a trace as long as each keeps the core's rule on 16 lanes. The events
/// are whole blocks, and the plan is a scenario's. It takes no memory. Of a plan with more than
/// 16,384 actions nothing is followed.
pub fn follow(plan: &Plan, events: &[Event]) -> Followed
    requires { AreWholeBlocks events.now }
    ensures { (s : Scenario) → IsPlanOf s plan.now → AreFollowed s events.now result.events result.blocks }
{
    let count = plan.len();
    let places = count as usize;
    if places > COUNTED {
        return Followed {
            events: 0,
            blocks: 0,
        };
    }
    let tallied = places + (places + 63) / 64;
    let mut started = [false; COUNTED];
    let mut ended = [false; COUNTED];
    let mut awaited = [0u32; TALLIED];
    let mut in_the_way = [0u32; TALLIED];
    let mut next = [0u32; COUNTED];
    let mut seen = [count; COUNTED];
    let mut holders: [Option<u32>; LANES] = [None; LANES];
    follow_with(
        plan,
        events,
        &mut started[..places],
        &mut ended[..places],
        &mut awaited[..tallied],
        &mut in_the_way[..tallied],
        &mut next[..places],
        &mut seen[..places],
        &mut holders,
    )
}
