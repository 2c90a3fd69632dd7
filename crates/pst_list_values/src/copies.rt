//! Copies of first objects, and of scenarios.
ghost use Rattle.std.specs.Prelude.{◌≡◌, IfOk};

use pst_base::{Items, NoMemory};
use pst_copies::{copy_acts, copy_nodes};
use pst_scen::{First, Scenario};
use std::alloc::Global;

// The same first object.
fn copy_first(alloc: Global, first: &First) -> Result<First, NoMemory>
    ensures { IfOk result (λ copy. copy ≡ first.now) }
{
    let values = Items::from_vec(Vec::from_slice(alloc, first.values.as_slice())?);
    Ok(First {
        pool: first.pool,
        values,
    })
}

// The same first objects.
fn copy_firsts(alloc: Global, firsts: &[First]) -> Result<Vec<First>, NoMemory>
    ensures { IfOk result (λ copy. copy.items ≡ firsts.now) }
{
    let mut copy = Vec::new(alloc);
    for first in firsts {
        copy.push(copy_first(alloc, first)?)?;
    }
    Ok(copy)
}

/// The same scenario.
pub fn copy_scenario(alloc: Global, scenario: &Scenario) -> Result<Scenario, NoMemory>
    ensures { IfOk result (λ copy. copy ≡ scenario.now) }
{
    let nodes = copy_nodes(alloc, scenario.nodes.as_slice())?;
    let actions = copy_acts(alloc, scenario.actions.as_slice())?;
    let firsts = copy_firsts(alloc, scenario.firsts.as_slice())?;
    Ok(Scenario {
        level: scenario.level,
        nodes: Items::from_vec(nodes),
        actions: Items::from_vec(actions),
        firsts: Items::from_vec(firsts),
    })
}
