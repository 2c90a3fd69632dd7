//! Giving enum items their values.
ghost use Rattle.std.specs.Prelude.{◌≡◌, ◌<◌, length, slice_get, Some, IfOk, OnOk, IsTrue, IsFalse};
ghost use Rattle.pst_evaluate.specs.Evaluated.{value_in};
ghost use Rattle.pst_evaluate.specs.Known.{item_value, known_by};
ghost use Rattle.pst_evaluate.specs.Listed.{view_listed};
ghost use Rattle.pst_evaluate.specs.Settled.{AreDerived, AreListed, AreSettled, HasValueSoFar, IsSettled};
ghost use Rattle.pst_evaluate.specs.declared.item.ListedItem.{ListedItem as AnItem};

use crate::evaluated::Evaluated;
use crate::item::value_of_item;
use crate::knowledge::Knowledge;
use crate::sources::ItemSources;
use pst_base::NoMemory;

// The value of an item by those that are kept.
fn value_so_far(
    sources: &ItemSources,
    values: &[Option<i64>],
    at: usize,
) -> Result<Evaluated, NoMemory>
    requires { at < length sources.now.items.now }
    ensures { IfOk result (λ r. (i : AnItem) → slice_get sources.now.items.now at ≡ Some i → value_in r ≡ item_value sources.now.index.now sources.now.names.now (known_by sources.now.places.now values.now) (view_listed i)) }
{
    let known = Knowledge {
        alloc: sources.alloc,
        index: sources.index,
        names: sources.names,
        places: sources.places,
        values,
    };
    value_of_item(&known, &sources.items[at])
}

// Keeps the value of an item.
fn keep_value(sources: &ItemSources, values: &mut [Option<i64>], at: usize, value: i64)
    requires listed { AreListed sources.now }
    requires derived { AreDerived sources.now values.old }
    requires within { at < length values.old }
    requires value { HasValueSoFar sources.now values.old at value }
    ensures { AreDerived sources.now values.new }
{
    values[at] = Some(value);
}

// Lets an item wait for another.
fn wait(waiting: &mut [Vec<u32>], other: usize, number: u32) -> Result<(), NoMemory> {
    if other < waiting.len() {
        waiting[other].push(number)?;
    }
    Ok(())
}

// Gives an item its value, where it has one so far, and puts those on the stack that wait for it;
// or lets it wait for the item that it lacks.
fn settle(
    sources: &ItemSources,
    values: &mut [Option<i64>],
    waiting: &mut [Vec<u32>],
    stack: &mut Vec<u32>,
    number: u32,
) -> Result<(), NoMemory>
    requires listed { AreListed sources.now }
    requires derived { AreDerived sources.now values.old }
    ensures { OnOk result (AreDerived sources.now values.new) }
{
    let at = number as usize;
    if at >= sources.items.len() || at >= values.len() || values[at].is_some() {
        return Ok(());
    }
    match value_so_far(sources, values, at)? {
        Evaluated::Value(value) => {
            keep_value(sources, values, at, value);
            if at < waiting.len() {
                stack.extend_from_slice(&waiting[at])?;
            }
            Ok(())
        }
        Evaluated::Lacks(other) => wait(waiting, other, number),
        Evaluated::Nothing => Ok(()),
    }
}

// Goes on with what is on the stack.
fn settle_stack(
    sources: &ItemSources,
    values: &mut [Option<i64>],
    waiting: &mut [Vec<u32>],
    stack: &mut Vec<u32>,
) -> Result<(), NoMemory>
    requires listed { AreListed sources.now }
    requires derived { AreDerived sources.now values.old }
    ensures { OnOk result (AreDerived sources.now values.new) }
{
    for _turn in 0..u64::MAX {
        let Some(number) = stack.pop() else {
            return Ok(());
        };
        settle(sources, values, waiting, stack, number)?;
    }
    Ok(())
}

/// Gives each item its value, in that order, as far as it has one then or by one that comes later.
pub fn settle_each(
    sources: &ItemSources,
    order: &[u32],
    values: &mut [Option<i64>],
) -> Result<(), NoMemory>
    requires listed { AreListed sources.now }
    requires derived { AreDerived sources.now values.old }
    ensures { OnOk result (AreDerived sources.now values.new) }
{
    let mut waiting = Vec::new(sources.alloc);
    for _item in sources.items {
        waiting.push(Vec::new(sources.alloc))?;
    }
    let mut stack = Vec::new(sources.alloc);
    for number in order {
        stack.push(*number)?;
        settle_stack(sources, values, waiting.as_mut_slice(), &mut stack)?;
    }
    Ok(())
}

// Whether an item has a value by those that are kept, and it isn't kept.
fn is_open(sources: &ItemSources, values: &[Option<i64>], at: usize) -> Result<bool, NoMemory>
    requires { at < length sources.now.items.now }
    ensures { IfOk result (λ yes. IsFalse yes → IsSettled sources.now values.now at) }
{
    if at >= values.len() {
        return Ok(true);
    }
    if values[at].is_some() {
        return Ok(false);
    }
    match value_so_far(sources, values, at)? {
        Evaluated::Value(_) => Ok(true),
        _ => Ok(false),
    }
}

/// Whether each item that has a value by those that are kept has it kept.
pub fn are_settled(sources: &ItemSources, values: &[Option<i64>]) -> Result<bool, NoMemory>
    ensures { IfOk result (λ yes. IsTrue yes → AreSettled sources.now values.now) }
{
    for at in 0..sources.items.len() {
        if is_open(sources, values, at)? {
            return Ok(false);
        }
    }
    Ok(true)
}
