//! Values that come down to declarations from their bases.
ghost use Rattle.std.specs.Prelude.{◌≡◌, ◌<◌, ℕ, Some, None, IfOk, IsFalse, IsTrue, OnOk, length};
ghost use Rattle.pst_steady.specs.Reached.{AreReached, AreSound, IsSettled, next_value as the_next, value_at};

use pst_base::NoMemory;
use std::alloc::Global;

/// Where a declaration has its value from.
#[derive(Clone, Copy, PartialEq, Eq)]
pub enum Seed {
    /// A value of its own.
    Own(usize),
    /// It has none.
    Stop,
    /// That of its base.
    Inherit,
}

/// A value that is kept.
pub fn value_at(values: &[Option<usize>], at: usize) -> Option<usize>
    ensures { result ≡ value_at values.now at }
{
    match values.get(at) {
        Some(value) => *value,
        None => None,
    }
}

// The value of a declaration by those that are kept.
fn next_value(
    seeds: &[Seed],
    bases: &[Option<usize>],
    values: &[Option<usize>],
    at: usize,
) -> Option<usize>
    ensures { result ≡ the_next seeds.now bases.now values.now at }
{
    match seeds.get(at) {
        Some(Seed::Own(value)) => Some(*value),
        Some(Seed::Inherit) => match value_at(bases, at) {
            Some(base) => value_at(values, base),
            None => None,
        },
        _ => None,
    }
}

// Gives a declaration its value, where it has one by those that are kept and it isn't kept.
fn settle(seeds: &[Seed], bases: &[Option<usize>], values: &mut [Option<usize>], at: usize) -> bool
    requires within { at < length values.old }
    requires sound { AreSound seeds.now bases.now values.old }
    ensures sound { AreSound seeds.now bases.now values.new }
    ensures same { IsFalse result → values.new ≡ values.old }
    ensures settled { IsFalse result → IsSettled seeds.now bases.now values.old at }
{
    if values[at].is_some() {
        return false;
    }
    match next_value(seeds, bases, values, at) {
        None => false,
        Some(value) => {
            values[at] = Some(value);
            true
        }
    }
}

// Gives each declaration its value, where it has one by those that are kept; whether there was one.
fn settle_all(seeds: &[Seed], bases: &[Option<usize>], values: &mut [Option<usize>]) -> bool
    requires sound { AreSound seeds.now bases.now values.old }
    ensures sound { AreSound seeds.now bases.now values.new }
    ensures settled { IsFalse result → (i : ℕ) → i < length values.new → IsSettled seeds.now bases.now values.new i }
{
    let mut changed = false;
    for at in 0..values.len() {
        if settle(seeds, bases, values, at) {
            changed = true;
        }
    }
    changed
}

// Gives declarations their values in an order.
fn settle_in(seeds: &[Seed], bases: &[Option<usize>], values: &mut [Option<usize>], order: &[usize])
    requires sound { AreSound seeds.now bases.now values.old }
    ensures sound { AreSound seeds.now bases.now values.new }
{
    for at in order {
        if *at < values.len() {
            settle(seeds, bases, values, *at);
        }
    }
}

// Gives all declarations their values. A pass in an order with each base before what is derived from
// it gives all; each later pass that gives one is looked behind.
fn settle_whole(
    seeds: &[Seed],
    bases: &[Option<usize>],
    values: &mut [Option<usize>],
    order: &[usize],
) -> Result<(), NoMemory>
    requires long { length values.old ≡ length seeds.now }
    requires sound { AreSound seeds.now bases.now values.old }
    ensures { OnOk result (AreReached seeds.now bases.now values.new) }
{
    settle_in(seeds, bases, values, order);
    for _pass in 0..=seeds.len() {
        if !settle_all(seeds, bases, values) {
            return Ok(());
        }
    }
    Err(NoMemory)
}

// No values.
fn without_values(alloc: Global, count: usize) -> Result<Vec<Option<usize>>, NoMemory>
    ensures long { IfOk result (λ values. length values.items ≡ count) }
    ensures none { IfOk result (λ values. (i : ℕ) → value_at values.items i ≡ None) }
{
    let mut values = Vec::new(alloc);
    for _at in 0..count {
        values.push(None)?;
    }
    Ok(values)
}

/// The value of each declaration, its own or that of its base, its base's base and so on. It takes
/// one pass where bases stand before what is derived from them in the order.
pub fn reached(
    alloc: Global,
    seeds: &[Seed],
    bases: &[Option<usize>],
    order: &[usize],
) -> Result<Vec<Option<usize>>, NoMemory>
    ensures { IfOk result (λ values. AreReached seeds.now bases.now values.items) }
{
    let mut values = without_values(alloc, seeds.len())?;
    settle_whole(seeds, bases, values.as_mut_slice(), order)?;
    Ok(values)
}
