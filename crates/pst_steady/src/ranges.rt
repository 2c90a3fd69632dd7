//! Activities and bodies in an order in which those of an action stand before those of what is
//! derived from it.
ghost use Rattle.std.specs.Prelude.{◌≡◌, ◌<◌, ℕ, Some, None, IfOk, IsTrue, length, slice_get};
ghost use Rattle.pst_places.specs.Numbers.{number_in};
ghost use Rattle.pst_steady.specs.Ranged.{AreRanged, IsBetween, IsPlaced, IsRanged};

use crate::reach::{Seed, value_at};
use pst_ast::Declaration;
use pst_base::NoMemory;
use pst_places::PlaceList;
use std::alloc::Global;

/// Numbers from a first one on.
#[derive(Clone, Copy, PartialEq, Eq)]
pub struct Range {
    /// The first.
    pub first: usize,
    /// The one behind the last.
    pub end: usize,
}

// How many of the activities and bodies are a declaration's own.
fn own_count(seed: Option<&Seed>) -> usize {
    match seed {
        Some(Seed::Own(_)) | Some(Seed::Stop) => 1,
        _ => 0,
    }
}

// Adds the number of a declaration to that of its base.
fn add_to_base(counts: &mut [usize], bases: &[Option<usize>], at: usize) {
    if let Some(base) = value_at(bases, at) {
        if base < counts.len() && at < counts.len() {
            counts[base] = counts[base].saturating_add(counts[at]);
        }
    }
}

// How many activities and bodies each declaration has with all that is derived from it.
fn counts_of(
    alloc: Global,
    seeds: &[Seed],
    bases: &[Option<usize>],
    order: &[usize],
) -> Result<Vec<usize>, NoMemory> {
    let mut counts = Vec::new(alloc);
    for seed in seeds {
        counts.push(own_count(Some(seed)))?;
    }
    for back in 0..order.len() {
        add_to_base(counts.as_mut_slice(), bases, order[order.len() - 1 - back]);
    }
    Ok(counts)
}

// Takes so many numbers, from the first that is free on.
fn take(free: &mut usize, count: usize) -> Range {
    let first = *free;
    *free = first.saturating_add(count);
    Range { first, end: *free }
}

// The numbers of a declaration, which it takes from those of its base, or from those that are free.
fn range_of(
    free: &mut usize,
    inner: &mut [usize],
    bases: &[Option<usize>],
    at: usize,
    count: usize,
) -> Range {
    match value_at(bases, at) {
        Some(base) if base < inner.len() => take(&mut inner[base], count),
        _ => take(free, count),
    }
}

// Gives a declaration its numbers, of which its own activity or body has the first.
fn give_range(
    free: &mut usize,
    inner: &mut [usize],
    ranges: &mut [Range],
    bases: &[Option<usize>],
    seeds: &[Seed],
    counts: &[usize],
    at: usize,
) {
    let count = counts.get(at).copied().unwrap_or(0);
    let range = range_of(free, inner, bases, at, count);
    if at < inner.len() {
        inner[at] = range.first.saturating_add(own_count(seeds.get(at)));
    }
    if at < ranges.len() {
        ranges[at] = range;
    }
}

// Numbers that are all zero.
fn zeros(alloc: Global, count: usize) -> Result<Vec<usize>, NoMemory> {
    let mut zeros = Vec::new(alloc);
    for _at in 0..count {
        zeros.push(0)?;
    }
    Ok(zeros)
}

// Ranges without numbers.
fn empty_ranges(alloc: Global, count: usize) -> Result<Vec<Range>, NoMemory> {
    let mut ranges = Vec::new(alloc);
    for _at in 0..count {
        ranges.push(Range { first: 0, end: 0 })?;
    }
    Ok(ranges)
}

/// For each declaration the numbers of the activities and bodies of it and of all that is derived
/// from it, its own first. No contract says so: `are_ranged` looks.
pub fn ranges_of(
    alloc: Global,
    seeds: &[Seed],
    bases: &[Option<usize>],
    order: &[usize],
) -> Result<Vec<Range>, NoMemory> {
    let counts = counts_of(alloc, seeds, bases, order)?;
    let mut inner = zeros(alloc, seeds.len())?;
    let mut ranges = empty_ranges(alloc, seeds.len())?;
    let mut free = 0;
    for at in order {
        give_range(
            &mut free,
            inner.as_mut_slice(),
            ranges.as_mut_slice(),
            bases,
            seeds,
            counts.as_slice(),
            *at,
        );
    }
    Ok(ranges)
}

// Keeps the number of the action with an activity.
fn keep_slot(slots: &mut [Option<usize>], seed: Seed, range: Range) {
    if let Seed::Own(action) = seed {
        if range.first < slots.len() {
            slots[range.first] = Some(action);
        }
    }
}

/// For each number of an activity or body that of the action with the activity; none for a body. No
/// contract says so: `are_ranged` looks.
pub fn slots_of(
    alloc: Global,
    seeds: &[Seed],
    ranges: &[Range],
) -> Result<Vec<Option<usize>>, NoMemory> {
    let mut slots = Vec::new(alloc);
    for _seed in seeds {
        slots.push(None)?;
    }
    for at in 0..seeds.len() {
        if at < ranges.len() {
            keep_slot(slots.as_mut_slice(), seeds[at], ranges[at]);
        }
    }
    Ok(slots)
}

// Whether a number is that of an action, or of a body.
fn is_slot(slots: &[Option<usize>], at: usize, action: Option<usize>) -> bool
    ensures { IsTrue result → slice_get slots.now at ≡ Some action }
{
    match slots.get(at) {
        None => false,
        Some(found) => *found == action,
    }
}

// Whether a declaration's own activity or body has the first of its numbers.
fn is_placed(slots: &[Option<usize>], range: Range, seed: Seed) -> bool
    ensures { IsTrue result → IsPlaced slots.now range seed }
{
    match seed {
        Seed::Own(action) => range.first < range.end && is_slot(slots, range.first, Some(action)),
        Seed::Stop => range.first < range.end && is_slot(slots, range.first, None),
        Seed::Inherit => true,
    }
}

// Whether the numbers of a declaration are among those of its base.
fn is_between(ranges: &[Range], range: Range, base: Option<usize>) -> bool
    ensures { IsTrue result → IsBetween ranges.now range base }
{
    match base {
        None => true,
        Some(base) => match ranges.get(base) {
            None => false,
            Some(around) => around.first <= range.first && range.end <= around.end,
        },
    }
}

// Whether a number is the first of the place of a declaration's name.
fn is_number(places: &PlaceList, declaration: &Declaration, number: usize) -> bool
    ensures { IsTrue result → number_in places.now declaration.now.name.place ≡ Some number }
{
    match places.number(declaration.name.place) {
        None => false,
        Some(found) => found == number,
    }
}

// Whether the numbers of a declaration are right.
fn is_ranged(
    places: &PlaceList,
    declaration: &Declaration,
    seed: Seed,
    base: Option<usize>,
    ranges: &[Range],
    slots: &[Option<usize>],
    at: usize,
) -> bool
    ensures { IsTrue result → IsRanged places.now declaration.now seed base ranges.now slots.now at }
{
    match ranges.get(at) {
        None => false,
        Some(range) => {
            is_number(places, declaration, at)
                && is_placed(slots, *range, seed)
                && is_between(ranges, *range, base)
        }
    }
}

/// Whether the numbers of all declarations are right: those of each are among those of its base, its
/// own activity or body has the first, and no two have one place.
pub fn are_ranged(
    places: &PlaceList,
    declarations: &[Declaration],
    seeds: &[Seed],
    bases: &[Option<usize>],
    ranges: &[Range],
    slots: &[Option<usize>],
) -> bool
    ensures { IsTrue result → AreRanged places.now declarations.now seeds.now bases.now ranges.now slots.now (length declarations.now) }
{
    for at in 0..declarations.len() {
        let (Some(seed), Some(base)) = (seeds.get(at), bases.get(at)) else {
            return false;
        };
        if !is_ranged(places, &declarations[at], *seed, *base, ranges, slots, at) {
            return false;
        }
    }
    true
}
