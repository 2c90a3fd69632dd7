//! Why an action comes behind others, or starts with them.
ghost use Rattle.std.specs.Prelude.{◌≡◌, ◌≢◌, ◌<◌, Some, All, length, true, IfOk, IfSome};
ghost use Rattle.pst_scen.specs.Scenarios.{reference_at};
ghost use Rattle.pst_scen.specs.Flows.{LeadsTo};
ghost use Rattle.pst_link_order.specs.Reasons.{IsReason, IsWhy};
ghost use Rattle.pst_link_order.specs.Takes.{IsTake, IsPair, ComesBefore};

use crate::implied::Pair;
use crate::named::{is_link, is_write, kind_of, other_of, reference_of, references_of};
use crate::takes::Take;
use pst_base::{Items, NoMemory};
use pst_scen::{Filled, Flow, Link, Scenario};
use std::alloc::Global;

/// The reason, of that kind, that names the other action.
fn reason(alloc: Global, flow: Flow, other: u32) -> Filled
    ensures flow { result.flow ≡ flow }
    ensures leads { LeadsTo result.link other }
{
    Filled {
        pool: 0,
        flow,
        values: Items::empty(alloc),
        link: Link::Act {
            act: other,
            reference: 0,
        },
    }
}

/// Adds the reason, of that kind, that the other action is.
fn add_reason(
    alloc: Global,
    found: &mut Vec<Filled>,
    scenario: &Scenario,
    act: u32,
    other: u32,
    kind: Flow,
) -> Result<(), NoMemory>
    requires below { other < length scenario.now.actions }
    requires different { other ≢ act }
    requires why { IsWhy scenario.now act other kind }
    requires before { All (IsReason scenario.now act) found.old.items }
    ensures { IfOk result (λ u. All (IsReason scenario.now act) found.new.items) }
{
    let _ = scenario;
    let _ = act;
    found.push(reason(alloc, kind, other))?;
    Ok(())
}

/// Adds the reason that a reference of the action is.
fn add_named(
    alloc: Global,
    found: &mut Vec<Filled>,
    scenario: &Scenario,
    act: u32,
    count: u32,
    reference: usize,
) -> Result<(), NoMemory>
    requires count { count ≡ length scenario.now.actions }
    requires before { All (IsReason scenario.now act) found.old.items }
    ensures { IfOk result (λ u. All (IsReason scenario.now act) found.new.items) }
{
    let Some(filled) = reference_of(scenario, act, reference) else {
        return Ok(());
    };
    let Some(other) = other_of(filled, act, count) else {
        return Ok(());
    };
    let Some(kind) = kind_of(filled.flow) else {
        return Ok(());
    };
    add_reason(alloc, found, scenario, act, other, kind)?;
    Ok(())
}

/// Whether who reads or replaces an object must come before the writer: it is the first object, or what the writer
/// replaces.
fn comes_before(take: Take, filled: &Filled, act: u32) -> bool
    ensures { result ≡ true → ComesBefore take filled.now act }
{
    if take.act == act || take.pool != filled.pool {
        return false;
    }
    if is_link(take.source, Link::Initial) {
        return true;
    }
    take.reads && is_link(take.source, filled.link)
}

/// Adds the reason that a read or write of the pool is to which the reference writes.
fn add_taken(
    alloc: Global,
    found: &mut Vec<Filled>,
    scenario: &Scenario,
    act: u32,
    reference: usize,
    filled: &Filled,
    take: Take,
) -> Result<(), NoMemory>
    requires is { reference_at scenario.now.actions act reference ≡ Some filled.now }
    requires writes { filled.now.flow ≡ Flow.StateOut }
    requires take { IsTake scenario.now take }
    requires before { All (IsReason scenario.now act) found.old.items }
    ensures { IfOk result (λ u. All (IsReason scenario.now act) found.new.items) }
{
    let _ = reference;
    if comes_before(take, filled, act) {
        add_reason(alloc, found, scenario, act, take.act, Flow::BufferIn)?;
    }
    Ok(())
}

/// Adds the reasons that the reads and writes of the pool are to which a reference of the action writes.
fn add_all_taken(
    alloc: Global,
    found: &mut Vec<Filled>,
    scenario: &Scenario,
    act: u32,
    reference: usize,
    takes: &[Take],
) -> Result<(), NoMemory>
    requires takes { All (IsTake scenario.now) takes.now }
    requires before { All (IsReason scenario.now act) found.old.items }
    ensures { IfOk result (λ u. All (IsReason scenario.now act) found.new.items) }
{
    let Some(filled) = reference_of(scenario, act, reference) else {
        return Ok(());
    };
    if !is_write(filled.flow) {
        return Ok(());
    }
    for take in takes {
        add_taken(alloc, found, scenario, act, reference, filled, *take)?;
    }
    Ok(())
}

/// Adds the reasons that the pairs are whose second action it is.
fn add_pairs(
    alloc: Global,
    found: &mut Vec<Filled>,
    scenario: &Scenario,
    act: u32,
    pairs: &[Pair],
) -> Result<(), NoMemory>
    requires pairs { All (IsPair scenario.now) pairs.now }
    requires before { All (IsReason scenario.now act) found.old.items }
    ensures { IfOk result (λ u. All (IsReason scenario.now act) found.new.items) }
{
    for pair in pairs {
        if pair.second == act {
            add_reason(alloc, found, scenario, act, pair.first, Flow::BufferIn)?;
        }
    }
    Ok(())
}

/// The reasons of the action: what its references name, who reads or replaces what it replaces, and the pairs.
pub(crate) fn reasons_of(
    alloc: Global,
    scenario: &Scenario,
    act: u32,
    count: u32,
    takes: &[Take],
    pairs: &[Pair],
) -> Result<Vec<Filled>, NoMemory>
    requires count { count ≡ length scenario.now.actions }
    requires takes { All (IsTake scenario.now) takes.now }
    requires pairs { All (IsPair scenario.now) pairs.now }
    ensures { IfOk result (λ found. All (IsReason scenario.now act) found.items) }
{
    let mut found = Vec::new(alloc);
    for reference in 0..references_of(scenario, act).len() {
        add_named(alloc, &mut found, scenario, act, count, reference)?;
        add_all_taken(alloc, &mut found, scenario, act, reference, takes)?;
    }
    add_pairs(alloc, &mut found, scenario, act, pairs)?;
    Ok(found)
}
