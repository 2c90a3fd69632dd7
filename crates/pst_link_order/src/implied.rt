//! The order that the chain of a state pool's writers implies.
ghost use Rattle.std.specs.Prelude.{◌≡◌, ◌≢◌, ◌<◌, All, length, true, IfOk, IfSome};
ghost use Rattle.pst_scen.specs.Flows.{LeadsTo};
ghost use Rattle.pst_scen.specs.Rows.{Has};
ghost use Rattle.pst_link_order.specs.Takes.{IsTake, IsWriter, IsPair, IsAheadBy};

use crate::takes::{Take, Writer};
use pst_base::NoMemory;
use pst_scen::{Link, Plan, Scenario};

/// Two actions of which the first must come before the second.
#[derive(Clone, Copy, Debug)]
pub(crate) struct Pair {
    /// The first.
    pub(crate) first: u32,
    /// The second.
    pub(crate) second: u32,
}

/// The action whose object is read or replaced.
fn source_of(take: Take) -> Option<u32>
    ensures { IfSome result (LeadsTo take.source) }
{
    match take.source {
        Link::Act { act, .. } => Some(act),
        _ => None,
    }
}

/// Whether the plan has the first action come before the second.
fn is_before(plan: &Plan, first: u32, second: u32) -> bool
    ensures has { result ≡ true → Has plan.now.must first second }
    ensures first { result ≡ true → first < length plan.now.groups }
    ensures second { result ≡ true → second < length plan.now.groups }
{
    if first >= plan.len() || second >= plan.len() {
        return false;
    }
    plan.must(first, second)
}

/// The writer and the source, where the writer comes before who takes the source's object.
fn earlier_of(
    scenario: &Scenario,
    plan: &Plan,
    take: Take,
    source: u32,
    writer: Writer,
) -> Option<Pair>
    requires plan { IsAheadBy scenario.now plan.now }
    requires take { IsTake scenario.now take }
    requires source { LeadsTo take.source source }
    requires writer { IsWriter scenario.now writer }
    requires pool { take.pool ≡ writer.pool }
    ensures { IfSome result (IsPair scenario.now) }
{
    let _ = scenario;
    if writer.act == source || is_before(plan, writer.act, source) {
        return None;
    }
    if !is_before(plan, writer.act, take.act) {
        return None;
    }
    Some(Pair {
        first: writer.act,
        second: source,
    })
}

/// Who takes the source's object, and the writer, where the writer comes after the source.
fn later_of(
    scenario: &Scenario,
    plan: &Plan,
    take: Take,
    source: u32,
    writer: Writer,
) -> Option<Pair>
    requires plan { IsAheadBy scenario.now plan.now }
    requires take { IsTake scenario.now take }
    requires source { LeadsTo take.source source }
    requires writer { IsWriter scenario.now writer }
    requires pool { take.pool ≡ writer.pool }
    ensures { IfSome result (IsPair scenario.now) }
{
    let _ = scenario;
    if take.act == writer.act || is_before(plan, take.act, writer.act) {
        return None;
    }
    if !is_before(plan, source, writer.act) {
        return None;
    }
    Some(Pair {
        first: take.act,
        second: writer.act,
    })
}

/// Two actions that the read or write and the writer order, where the plan doesn't yet.
fn implied_by(scenario: &Scenario, plan: &Plan, take: Take, writer: Writer) -> Option<Pair>
    requires plan { IsAheadBy scenario.now plan.now }
    requires take { IsTake scenario.now take }
    requires writer { IsWriter scenario.now writer }
    ensures { IfSome result (IsPair scenario.now) }
{
    if take.pool != writer.pool {
        return None;
    }
    let source = source_of(take)?;
    match earlier_of(scenario, plan, take, source, writer) {
        Some(pair) => Some(pair),
        None => later_of(scenario, plan, take, source, writer),
    }
}

/// Adds what the read or write and the writers order, and says whether it is anything.
fn add_implied_by(
    pairs: &mut Vec<Pair>,
    scenario: &Scenario,
    plan: &Plan,
    take: Take,
    writers: &[Writer],
) -> Result<bool, NoMemory>
    requires plan { IsAheadBy scenario.now plan.now }
    requires take { IsTake scenario.now take }
    requires writers { All (IsWriter scenario.now) writers.now }
    requires before { All (IsPair scenario.now) pairs.old.items }
    ensures { IfOk result (λ more. All (IsPair scenario.now) pairs.new.items) }
{
    let mut more = false;
    for writer in writers {
        if let Some(pair) = implied_by(scenario, plan, take, *writer) {
            pairs.push(pair)?;
            more = true;
        }
    }
    Ok(more)
}

/// Adds what the reads and writes and the writers order, and says whether it is anything.
pub(crate) fn add_implied(
    pairs: &mut Vec<Pair>,
    scenario: &Scenario,
    plan: &Plan,
    takes: &[Take],
    writers: &[Writer],
) -> Result<bool, NoMemory>
    requires plan { IsAheadBy scenario.now plan.now }
    requires takes { All (IsTake scenario.now) takes.now }
    requires writers { All (IsWriter scenario.now) writers.now }
    requires before { All (IsPair scenario.now) pairs.old.items }
    ensures { IfOk result (λ more. All (IsPair scenario.now) pairs.new.items) }
{
    let mut more = false;
    for take in takes {
        let added = add_implied_by(pairs, scenario, plan, *take, writers)?;
        more = more || added;
    }
    Ok(more)
}
