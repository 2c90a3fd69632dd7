//! Whether the order so far refuses a scenario.
ghost use Rattle.std.specs.Prelude.{◌≡◌, All, length, true, IfOk, OnOk};
ghost use Rattle.pst_order_ahead.specs.Ahead.{IsRefusedAhead};
ghost use Rattle.pst_order_ahead.specs.LaidOut.{IsLaidOut};
ghost use Rattle.pst_link_order.specs.Takes.{IsTake, IsWriter, IsPair, IsAheadBy};
ghost use Rattle.pst_link_order.specs.Written.{IsWrittenOf, Counts};
ghost use Rattle.pst_link_order.specs.Outcomes.{TellsOutcome};

use crate::implied::{Pair, add_implied};
use crate::takes::{Take, Writer, takes_of, writers_of};
use crate::written::written_of;
use pst_base::NoMemory;
use pst_graph::{PlanEnd, plan_of};
use pst_scen::{Plan, Scenario};
use std::alloc::Global;

// How often what is implied is looked for again.
const MOST_ROUNDS: u32 = 64;

// How many pairs of a read or write and a writer are looked at for what they imply.
const MOST_PAIRS: usize = 4096;

/// What the written order comes to.
enum Outcome {
    /// It refuses the scenario.
    Refused,
    /// It doesn't, and says nothing more.
    Silent,
    /// It doesn't, and this is its plan.
    Planned(Plan),
}

/// What the order so far comes to.
#[derive(Clone, Copy, Debug, PartialEq, Eq)]
enum Round {
    /// It refuses the scenario.
    Refused,
    /// It doesn't.
    Settled,
    /// It doesn't yet, and more is implied.
    More,
}

/// Whether the end of a plan refuses the scenario. Two claims of one action don't.
fn refuses(end: PlanEnd) -> Result<bool, NoMemory>
    ensures { IfOk result (λ r. r ≡ true → Counts end) }
{
    match end {
        PlanEnd::NoMemory => Err(NoMemory),
        PlanEnd::GroupClash { a, b } => Ok(a != b),
        _ => Ok(true),
    }
}

/// What the written order comes to.
fn outcome_of(alloc: Global, scenario: &Scenario, written: &Scenario) -> Result<Outcome, NoMemory>
    requires { IsWrittenOf scenario.now written.now }
    ensures { IfOk result (TellsOutcome scenario.now) }
{
    let _ = scenario;
    match plan_of(alloc, written) {
        Ok(plan) => Ok(Outcome::Planned(plan)),
        Err(end) => {
            let refused = refuses(end)?;
            if refused {
                return Ok(Outcome::Refused);
            }
            Ok(Outcome::Silent)
        }
    }
}

/// What the order so far comes to, with these pairs.
fn written_outcome(
    alloc: Global,
    scenario: &Scenario,
    count: u32,
    takes: &[Take],
    pairs: &[Pair],
) -> Result<Outcome, NoMemory>
    requires laid { IsLaidOut scenario.now }
    requires count { count ≡ length scenario.now.actions }
    requires takes { All (IsTake scenario.now) takes.now }
    requires pairs { All (IsPair scenario.now) pairs.now }
    ensures { IfOk result (TellsOutcome scenario.now) }
{
    let written = written_of(alloc, scenario, count, takes, pairs)?;
    outcome_of(alloc, scenario, &written)
}

/// Adds what the plan implies, where there are few reads and writes.
fn settle(
    scenario: &Scenario,
    plan: &Plan,
    takes: &[Take],
    writers: &[Writer],
    pairs: &mut Vec<Pair>,
) -> Result<Round, NoMemory>
    requires plan { IsAheadBy scenario.now plan.now }
    requires takes { All (IsTake scenario.now) takes.now }
    requires writers { All (IsWriter scenario.now) writers.now }
    requires pairs { All (IsPair scenario.now) pairs.old.items }
    ensures refused { IfOk result (λ r. r ≡ Round.Refused → IsRefusedAhead scenario.now) }
    ensures pairs { OnOk result (All (IsPair scenario.now) pairs.new.items) }
{
    if takes.len().saturating_mul(writers.len()) > MOST_PAIRS {
        return Ok(Round::Settled);
    }
    let more = add_implied(pairs, scenario, plan, takes, writers)?;
    if more {
        return Ok(Round::More);
    }
    Ok(Round::Settled)
}

/// Judges the order so far with these pairs, and adds what is implied.
fn judge(
    alloc: Global,
    scenario: &Scenario,
    count: u32,
    takes: &[Take],
    writers: &[Writer],
    pairs: &mut Vec<Pair>,
) -> Result<Round, NoMemory>
    requires laid { IsLaidOut scenario.now }
    requires count { count ≡ length scenario.now.actions }
    requires takes { All (IsTake scenario.now) takes.now }
    requires writers { All (IsWriter scenario.now) writers.now }
    requires pairs { All (IsPair scenario.now) pairs.old.items }
    ensures refused { IfOk result (λ r. r ≡ Round.Refused → IsRefusedAhead scenario.now) }
    ensures pairs { OnOk result (All (IsPair scenario.now) pairs.new.items) }
{
    let outcome = written_outcome(alloc, scenario, count, takes, pairs)?;
    match outcome {
        Outcome::Refused => Ok(Round::Refused),
        Outcome::Silent => Ok(Round::Settled),
        Outcome::Planned(plan) => settle(scenario, &plan, takes, writers, pairs),
    }
}

/// Whether the order so far of a scenario whose sources are being linked refuses every legal scenario ahead: an action
/// must come before itself, or before one in a different branch of a parallel block, or two actions that start
/// together, or stand in different branches, can't run at one time.
///
/// The writers of a state pool stand in one chain; what that implies of the order is seen too, where there are few of
/// them.
pub fn is_refused_ahead(alloc: Global, scenario: &Scenario) -> Result<bool, NoMemory>
    requires { IsLaidOut scenario.now }
    ensures { IfOk result (λ r. r ≡ true → IsRefusedAhead scenario.now) }
{
    let count = scenario.actions.as_slice().len() as u32;
    let takes = takes_of(alloc, scenario, count)?;
    let writers = writers_of(alloc, scenario, count)?;
    let mut pairs = Vec::new(alloc);
    for _round in 0..MOST_ROUNDS {
        match judge(alloc, scenario, count, &takes, &writers, &mut pairs)? {
            Round::Refused => return Ok(true),
            Round::Settled => return Ok(false),
            Round::More => {}
        }
    }
    Ok(false)
}
