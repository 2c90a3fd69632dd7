//! Places of asks.
ghost use Rattle.std.specs.Prelude.{◌≡◌, ◌≤◌, ◌<◌, ◌+◌, ◌^◌, ◌∷◌, ◌++◌, [], ℕ, length, IfOk, OnOk, MatchResult};
ghost use Rattle.std.specs.List.{insert};
ghost use Rattle.pst_addr.specs.Places.{AreAsks, ArePlaced, EndsPlacing};
ghost use Rattle.pst_addr.specs.Ranges.{AreSorted, IsInsertion, range_of};
ghost use Rattle.pst_addr.specs.Columns.{IsAdded};

use crate::ask::{Ask, PlaceEnd, Range, Space};
use crate::columns::bring;
use crate::first_fit::first_fit;
use crate::needed::needed_asks;
use pst_base::NoMemory;
use pst_scen::Plan;
use std::alloc::Global;

/// The number of ranges that begin at the address or before it, where they stand in that order.
fn count_before(ranges: &[Range], address: u64) -> usize
    requires { AreSorted ranges.now }
    ensures { IsInsertion ranges.now address result }
{
    ranges.partition_point(|range| range.low <= address)
}

/// Adds a range to those that stand in the order of their first bytes.
fn add_range(ranges: &mut Vec<Range>, range: Range) -> Result<(), NoMemory>
    requires { AreSorted ranges.old.items }
    ensures { IfOk result (λ _. (at : ℕ) × IsInsertion ranges.old.items range.low at × (ranges.new.items ≡ insert ranges.old.items at range)) }
{
    let at = count_before(ranges, range.low);
    ranges.insert(at, range)?;
    Ok(())
}

/// Adds it, if it is needed.
fn keep_range(ranges: &mut Vec<Range>, range: Range, needed: bool) -> Result<(), NoMemory>
    requires { AreSorted ranges.old.items }
    ensures { OnOk result (IsAdded needed ranges.old.items range ranges.new.items) }
{
    if needed {
        add_range(ranges, range)?;
    }
    Ok(())
}

/// So many words.
fn words(alloc: Global, count: u32) -> Result<Vec<u64>, NoMemory>
    ensures { IfOk result (λ words. length words.items ≡ count) }
{
    Ok(Vec::from_elem(alloc, 0u64, count as usize)?)
}

/// An empty list with room for so many items.
fn room<T>(alloc: Global, count: usize) -> Result<Vec<T>, NoMemory>
    ensures { IfOk result (λ items. items.items ≡ []) }
{
    Ok(Vec::with_capacity(alloc, count)?)
}

/// Adds an address.
fn add_place(places: &mut Vec<u64>, address: u64) -> Result<(), NoMemory>
    ensures { IfOk result (λ _. places.new.items ≡ places.old.items ++ address ∷ []) }
{
    places.push(address)?;
    Ok(())
}

/// The bytes of the ask at the address.
fn range_at(ask: Ask, address: u64) -> Range
    requires { address + ask.size < 2 ^ 64 }
    ensures { result ≡ range_of ask address }
{
    Range {
        low: address,
        high: address + ask.size,
        action: ask.action,
    }
}

/// Places each ask at the least aligned address of the space that is clear of the earlier asks that
/// meet it.
pub fn place(alloc: Global, plan: &Plan, asks: &[Ask], space: Space) -> Result<Vec<u64>, PlaceEnd>
    requires asks { AreAsks plan.now asks.now }
    requires few { length asks.now < 2 ^ 32 }
    requires space { space.base + space.size ≤ 2 ^ 63 }
    ensures { MatchResult result (λ places. ArePlaced plan.now space asks.now places.items) (EndsPlacing plan.now space asks.now) }
{
    let needed = needed_asks(alloc, plan, asks)?;
    let mut column = words(alloc, plan.len())?;
    let mut held = column.len();
    let mut places = room(alloc, asks.len())?;
    let mut ranges = room(alloc, asks.len())?;
    for k in 0..asks.len() {
        let at = asks[k].action as usize / 64;
        bring(&mut column, held, plan.must_rows(), at);
        held = at;
        let Some(address) = first_fit(plan, &column, &ranges, asks[k], space) else {
            return Err(PlaceEnd::NoRoom { ask: k as u32 });
        };
        keep_range(&mut ranges, range_at(asks[k], address), needed[k])?;
        add_place(&mut places, address)?;
    }
    Ok(places)
}
