//! Reads and writes of state pools.
ghost use Rattle.std.specs.Prelude.{◌≡◌, ◌<◌, Some, All, length, true, IfOk, IfSome};
ghost use Rattle.pst_scen.specs.Scenarios.{reference_at};
ghost use Rattle.pst_link_order.specs.Takes.{IsTake, IsWriter};

use crate::named::{is_link, is_read, is_state, is_write, reference_of, references_of};
use pst_base::NoMemory;
use pst_scen::{Filled, Link, Scenario};
use std::alloc::Global;

/// A read or write of a state pool whose source is linked.
#[derive(Clone, Copy, Debug)]
pub(crate) struct Take {
    /// The pool.
    pub(crate) pool: u32,
    /// What is read or replaced.
    pub(crate) source: Link,
    /// The action.
    pub(crate) act: u32,
    /// Whether it is a read.
    pub(crate) reads: bool,
}

/// A write of a state pool, linked or not.
#[derive(Clone, Copy, Debug)]
pub(crate) struct Writer {
    /// The pool.
    pub(crate) pool: u32,
    /// The action.
    pub(crate) act: u32,
}

/// The read or write that the reference is, where it is linked.
fn take_of(scenario: &Scenario, filled: &Filled, act: u32, reference: usize) -> Option<Take>
    requires below { act < length scenario.now.actions }
    requires is { reference_at scenario.now.actions act reference ≡ Some filled.now }
    ensures { IfSome result (IsTake scenario.now) }
{
    let _ = scenario;
    let _ = reference;
    if is_link(filled.link, Link::Nothing) || !is_state(filled.flow) {
        return None;
    }
    Some(Take {
        pool: filled.pool,
        source: filled.link,
        act,
        reads: is_read(filled.flow),
    })
}

/// Adds the read or write that the reference is, where it is linked.
fn add_take(
    found: &mut Vec<Take>,
    scenario: &Scenario,
    act: u32,
    reference: usize,
) -> Result<(), NoMemory>
    requires below { act < length scenario.now.actions }
    requires before { All (IsTake scenario.now) found.old.items }
    ensures { IfOk result (λ u. All (IsTake scenario.now) found.new.items) }
{
    let Some(filled) = reference_of(scenario, act, reference) else {
        return Ok(());
    };
    let Some(take) = take_of(scenario, filled, act, reference) else {
        return Ok(());
    };
    found.push(take)?;
    Ok(())
}

/// Adds the reads and writes that the references of the action are.
fn add_takes(found: &mut Vec<Take>, scenario: &Scenario, act: u32) -> Result<(), NoMemory>
    requires below { act < length scenario.now.actions }
    requires before { All (IsTake scenario.now) found.old.items }
    ensures { IfOk result (λ u. All (IsTake scenario.now) found.new.items) }
{
    for reference in 0..references_of(scenario, act).len() {
        add_take(found, scenario, act, reference)?;
    }
    Ok(())
}

/// The reads and writes of state pools whose sources are linked.
pub(crate) fn takes_of(
    alloc: Global,
    scenario: &Scenario,
    count: u32,
) -> Result<Vec<Take>, NoMemory>
    requires { count ≡ length scenario.now.actions }
    ensures { IfOk result (λ found. All (IsTake scenario.now) found.items) }
{
    let mut found = Vec::new(alloc);
    for act in 0..count {
        add_takes(&mut found, scenario, act)?;
    }
    Ok(found)
}

/// The write that the reference is.
fn writer_of(scenario: &Scenario, act: u32, reference: usize) -> Option<Writer>
    requires { act < length scenario.now.actions }
    ensures { IfSome result (IsWriter scenario.now) }
{
    let filled = reference_of(scenario, act, reference)?;
    if !is_write(filled.flow) {
        return None;
    }
    Some(Writer {
        pool: filled.pool,
        act,
    })
}

/// Adds the write that the reference is.
fn add_writer(
    found: &mut Vec<Writer>,
    scenario: &Scenario,
    act: u32,
    reference: usize,
) -> Result<(), NoMemory>
    requires below { act < length scenario.now.actions }
    requires before { All (IsWriter scenario.now) found.old.items }
    ensures { IfOk result (λ u. All (IsWriter scenario.now) found.new.items) }
{
    let Some(writer) = writer_of(scenario, act, reference) else {
        return Ok(());
    };
    found.push(writer)?;
    Ok(())
}

/// Adds the writes that the references of the action are.
fn add_writers(found: &mut Vec<Writer>, scenario: &Scenario, act: u32) -> Result<(), NoMemory>
    requires below { act < length scenario.now.actions }
    requires before { All (IsWriter scenario.now) found.old.items }
    ensures { IfOk result (λ u. All (IsWriter scenario.now) found.new.items) }
{
    for reference in 0..references_of(scenario, act).len() {
        add_writer(found, scenario, act, reference)?;
    }
    Ok(())
}

/// The writes of state pools.
pub(crate) fn writers_of(
    alloc: Global,
    scenario: &Scenario,
    count: u32,
) -> Result<Vec<Writer>, NoMemory>
    requires { count ≡ length scenario.now.actions }
    ensures { IfOk result (λ found. All (IsWriter scenario.now) found.items) }
{
    let mut found = Vec::new(alloc);
    for act in 0..count {
        add_writers(&mut found, scenario, act)?;
    }
    Ok(found)
}
