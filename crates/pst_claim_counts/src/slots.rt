//! Which actions need instances together: those of one leaf, and those of one group.
ghost use Rattle.std.specs.Prelude.{◌≡◌, ◌↔◌, IfOk, IfSome, OnOk, IsTrue};
ghost use Rattle.pst_nodes.specs.Over.{IsLeafOf};
ghost use Rattle.pst_claim_counts.specs.Needs.{AreLeafSlots, AreGroupSlots};

use pst_base::NoMemory;
use pst_scen::{Act, Fill, Node, Scenario};
use std::alloc::Global;

// Whether it is the leaf of the action.
fn is_leaf_of(fill: &Fill, act: u32) -> bool
    ensures { IsTrue result ↔ fill.now ≡ Fill.Leaf act }
{
    match fill {
        Fill::Leaf { act: other } => *other == act,
        _ => false,
    }
}

// Whether the node is there, and is the action's leaf.
fn is_leaf_at(nodes: &[Node], n: usize, act: u32) -> bool
    ensures { IsTrue result → IsLeafOf nodes.now act n }
{
    n < nodes.len() && is_leaf_of(&nodes[n].fill, act)
}

// The leaf of the action of that number, if it has one.
fn leaf_of(nodes: &[Node], act: &Act, a: u32) -> Option<u32>
    ensures { IfSome result (IsLeafOf nodes.now a) }
{
    if let Some(n) = act.node {
        if is_leaf_at(nodes, n as usize, a) {
            return Some(n);
        }
    }
    None
}

// The number, where it fits 32 bits.
fn narrow(number: usize) -> Result<u32, NoMemory>
    ensures { IfOk result (λ n. n ≡ number) }
{
    match u32::try_from(number) {
        Ok(number) => Ok(number),
        Err(_) => Err(NoMemory),
    }
}

// Adds the leaf of the next action.
fn push_leaf(slots: &mut Vec<Option<u32>>, nodes: &[Node], act: &Act) -> Result<(), NoMemory>
    ensures { OnOk result (AreLeafSlots nodes.now slots.old.items → AreLeafSlots nodes.now slots.new.items) }
{
    let a = narrow(slots.len())?;
    slots.push(leaf_of(nodes, act, a))?;
    Ok(())
}

/// For each action its leaf.
pub(crate) fn leaf_slots(alloc: Global, scenario: &Scenario) -> Result<Vec<Option<u32>>, NoMemory>
    ensures { IfOk result (λ slots. AreLeafSlots scenario.now.nodes slots.items) }
{
    let nodes = scenario.nodes.as_slice();
    let mut slots = Vec::new(alloc);
    for act in scenario.actions.as_slice() {
        push_leaf(&mut slots, nodes, act)?;
    }
    Ok(slots)
}

/// For each action its group.
pub(crate) fn group_slots(alloc: Global, groups: &[u32]) -> Result<Vec<Option<u32>>, NoMemory>
    ensures { IfOk result (λ slots. AreGroupSlots groups.now slots.items) }
{
    let mut slots = Vec::new(alloc);
    for group in groups {
        slots.push(Some(*group))?;
    }
    Ok(slots)
}
