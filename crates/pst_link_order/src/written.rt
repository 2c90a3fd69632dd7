//! The order so far, written as a scenario.
ghost use Rattle.std.specs.Prelude.{◌≡◌, All, length, IfOk};
ghost use Rattle.std.specs.List.{count_by};
ghost use Rattle.std.specs.Option.{is_none};
ghost use Rattle.pst_order_ahead.specs.LaidOut.{IsLaidOut};
ghost use Rattle.pst_link_order.specs.Takes.{IsTake, IsPair};
ghost use Rattle.pst_link_order.specs.Written.{IsWrittenAct, AreActsOf, IsWrittenOf};

use crate::implied::Pair;
use crate::reasons::reasons_of;
use crate::takes::Take;
use crate::uses::uses_of;
use pst_base::{Items, NoMemory};
use pst_copies::copy_nodes;
use pst_scen::{Act, Scenario};
use std::alloc::Global;

/// The action, with its reasons for references and its uses of state pools for claims.
fn written_act(
    alloc: Global,
    scenario: &Scenario,
    act: &Act,
    number: u32,
    count: u32,
    takes: &[Take],
    pairs: &[Pair],
) -> Result<Act, NoMemory>
    requires count { count ≡ length scenario.now.actions }
    requires takes { All (IsTake scenario.now) takes.now }
    requires pairs { All (IsPair scenario.now) pairs.now }
    ensures node { IfOk result (λ written. written.node ≡ act.now.node) }
    ensures written { IfOk result (IsWrittenAct scenario.now number) }
{
    let references = reasons_of(alloc, scenario, number, count, takes, pairs)?;
    let claims = uses_of(alloc, scenario, number)?;
    Ok(Act {
        action: act.action,
        instance: act.instance,
        node: act.node,
        fields: Items::empty(alloc),
        references: Items::from_vec(references),
        claims: Items::from_vec(claims),
    })
}

/// The actions so.
fn written_acts(
    alloc: Global,
    scenario: &Scenario,
    count: u32,
    takes: &[Take],
    pairs: &[Pair],
) -> Result<Vec<Act>, NoMemory>
    requires count { count ≡ length scenario.now.actions }
    requires takes { All (IsTake scenario.now) takes.now }
    requires pairs { All (IsPair scenario.now) pairs.now }
    ensures { IfOk result (λ acts. AreActsOf scenario.now acts.items) }
{
    let actions = scenario.actions.as_slice();
    let mut acts = Vec::new(alloc);
    let mut number = 0;
    for act in actions {
        let written = written_act(alloc, scenario, act, number, count, takes, pairs)?;
        acts.push(written)?;
        number += 1;
    }
    Ok(acts)
}

/// How many of the actions have no leaf.
fn inferred_of(acts: &[Act]) -> Result<u32, NoMemory>
    ensures { IfOk result (λ count. count ≡ count_by (λ act. is_none act.node) acts.now) }
{
    let count = acts.iter().filter(|act| act.node.is_none()).count();
    match u32::try_from(count) {
        Ok(count) => Ok(count),
        Err(_) => Err(NoMemory),
    }
}

/// The scenario of the same nodes in which each reason of the order so far is a buffer or a stream, and each use of a
/// state pool a claim.
pub(crate) fn written_of(
    alloc: Global,
    scenario: &Scenario,
    count: u32,
    takes: &[Take],
    pairs: &[Pair],
) -> Result<Scenario, NoMemory>
    requires laid { IsLaidOut scenario.now }
    requires count { count ≡ length scenario.now.actions }
    requires takes { All (IsTake scenario.now) takes.now }
    requires pairs { All (IsPair scenario.now) pairs.now }
    ensures { IfOk result (IsWrittenOf scenario.now) }
{
    let acts = written_acts(alloc, scenario, count, takes, pairs)?;
    let level = inferred_of(scenario.actions.as_slice())?;
    let nodes = copy_nodes(alloc, scenario.nodes.as_slice())?;
    Ok(Scenario {
        level,
        nodes: Items::from_vec(nodes),
        actions: Items::from_vec(acts),
        firsts: Items::empty(alloc),
    })
}
