//! Whether the starts of a block are those of one whole group.
ghost use Rattle.std.specs.Prelude.{◌≡◌, ◌<◌, ◌↔◌, length, get_or, map, IsTrue};
ghost use Rattle.pst_scen.specs.Plan.{members};
ghost use Rattle.pst_by_rule.specs.Blocks.{act_of};
ghost use Rattle.pst_check.specs.Tests.{AreGroup, IsActAt};

use pst_by_rule::act_of;
use pst_scen::{Event, Plan};

/// Whether the event of that place is there, and is of the action.
fn is_act_at(part: &[Event], place: usize, a: u32) -> bool
    ensures { IsTrue result ↔ IsActAt part.now place a }
{
    if place >= part.len() {
        return false;
    }
    act_of(part[place]) == a
}

/// Whether the actions are the members of the group of that number.
fn are_members(plan: &Plan, part: &[Event], group: u32) -> bool
    ensures { IsTrue result ↔ map act_of part.now ≡ members plan.now.groups group }
{
    let mut at = 0;
    for a in 0..plan.len() {
        if plan.group(a) == group {
            if !is_act_at(part, at, a) {
                return false;
            }
            at += 1;
        }
    }
    at == part.len()
}

/// Whether the actions are the members of the first one's group, which is there.
pub(crate) fn is_group(plan: &Plan, part: &[Event]) -> bool
    requires { 0 < length part.now }
    ensures { IsTrue result ↔ AreGroup plan.now part.now }
{
    let first = act_of(part[0]);
    if first >= plan.len() {
        return false;
    }
    are_members(plan, part, plan.group(first))
}
