//! The least address for an ask, by one pass over the ranges of the earlier asks that it may meet.
ghost use Rattle.std.specs.Prelude.{◌≡◌, ◌≤◌, ◌<◌, ◌+◌, ◌/◌, ◌^◌, ◌↔◌, ℕ, length, IsTrue, MatchOption};
ghost use Rattle.std.specs.List.{All};
ghost use Rattle.pst_addr.specs.declared.ask.Range.{Range as RangeRow};
ghost use Rattle.pst_addr.specs.Places.{Meet, IsLeast, IsAsk};
ghost use Rattle.pst_addr.specs.Columns.{IsColumn};
ghost use Rattle.pst_addr.specs.Ranges.{AreSorted, FitsAmong, IsPast, NothingIsPast};

use crate::ask::{Ask, Range, Space};
use crate::columns::comes_behind;
use crate::multiple::next_multiple;
use pst_scen::Plan;

/// Whether the asks of two actions meet, where the words of the first one's column are held.
fn meet(plan: &Plan, column: &[u64], one: u32, other: u32) -> bool
    requires column { IsColumn plan.now.must (one / 64) column.now }
    requires one_in { one < length plan.now.groups }
    requires other_in { other < length plan.now.groups }
    ensures { IsTrue result ↔ Meet plan.now one other }
{
    if one == other {
        return true;
    }
    if comes_behind(plan, column, one, other) {
        return false;
    }
    if plan.must(one, other) {
        return false;
    }
    !plan.conflict(one, other)
}

/// Where the ask's bytes that would stand at the address go on: behind the range, if it is in their
/// way.
fn past(plan: &Plan, column: &[u64], ask: Ask, address: u64, range: Range) -> Option<u64>
    requires column { IsColumn plan.now.must (ask.action / 64) column.now }
    requires ask_in { IsAsk plan.now ask }
    requires range_in { range.action < length plan.now.groups }
    ensures { MatchOption result (NothingIsPast plan.now ask address range) (IsPast plan.now ask address range) }
{
    if range.high <= address {
        return Some(address);
    }
    if !meet(plan, column, ask.action, range.action) {
        return Some(address);
    }
    next_multiple(range.high, ask.align)
}

/// The least address at which the ask fits among the ranges, which stand in the order of their first
/// bytes; none where there is none. The address moves behind each range that is in the way, and a
/// range that lies behind the ask's bytes ends the pass, since all further ones do too.
pub(crate) fn first_fit(
    plan: &Plan,
    column: &[u64],
    ranges: &[Range],
    ask: Ask,
    space: Space,
) -> Option<u64>
    requires column { IsColumn plan.now.must (ask.action / 64) column.now }
    requires ask_in { IsAsk plan.now ask }
    requires ranges_in { All (λ (range : RangeRow). range.action < length plan.now.groups) ranges.now }
    requires sorted { AreSorted ranges.now }
    requires space { space.base + space.size < 2 ^ 64 }
    ensures { MatchOption result ((address : ℕ) → FitsAmong plan.now space ranges.now ask address → ⊥) (IsLeast (FitsAmong plan.now space ranges.now ask)) }
{
    let top = space.base + space.size;
    if ask.size > top {
        return None;
    }
    let last = top - ask.size;
    let mut address = next_multiple(space.base, ask.align)?;
    for k in 0..ranges.len() {
        if address > last {
            return None;
        }
        if address + ask.size <= ranges[k].low {
            return Some(address);
        }
        address = past(plan, column, ask, address, ranges[k])?;
    }
    if address > last {
        return None;
    }
    Some(address)
}
