//! The nodes that a choice touches.
ghost use Rattle.std.specs.Prelude.{◌≡◌, ◌≤◌, IfOk, IfSome, OnOk, length};
ghost use Rattle.pst_slots.specs.Stated.{parent_of};
ghost use Rattle.pst_touched.specs.Touched.{StandsEarlier, HasTouched};
ghost use Rattle.pst_touched.specs.Ways.{HasWay, HasOld, HasOlds, HasWayOf, HasWaysOf, Keeps};

use pst_base::NoMemory;
use pst_scen::{Act, Node};
use std::alloc::Global;

// The node that contains the node of that number.
fn parent_of(nodes: &[Node], n: usize) -> Option<usize>
    ensures { result ≡ parent_of nodes.now n }
{
    match nodes.get(n)?.parent {
        None => None,
        Some(parent) => Some(parent as usize),
    }
}

// Adds a node and all that stand above it.
fn add_way(nodes: &[Node], n: usize, found: &mut Vec<usize>) -> Result<(), NoMemory>
    ensures kept { OnOk result (Keeps found.old.items found.new.items) }
    ensures way { OnOk result (HasWay nodes.now found.new.items n) }
{
    found.push(n)?;
    let Some(parent) = parent_of(nodes, n) else {
        return Ok(());
    };
    if parent >= n {
        return Ok(());
    }
    add_way(nodes, parent, found)?;
    Ok(())
}

// Adds the nodes below a number that a node stands below, where they aren't those above the last
// parent that was looked at. Returns its own parent, where that is below the number.
fn add_above(
    nodes: &[Node],
    from: usize,
    n: usize,
    last: Option<usize>,
    found: &mut Vec<usize>,
) -> Result<Option<usize>, NoMemory>
    requires last { IfSome last (λ parent. HasWay nodes.now found.old.items parent) }
    requires old { HasOlds nodes.now from found.old.items n }
    requires from { from ≤ n }
    ensures kept { IfOk result (λ last. Keeps found.old.items found.new.items) }
    ensures last { IfOk result (λ last. IfSome last (λ parent. HasWay nodes.now found.new.items parent)) }
    ensures old { IfOk result (λ last. HasOld nodes.now from found.new.items n) }
{
    let Some(parent) = parent_of(nodes, n) else {
        return Ok(last);
    };
    if parent >= from {
        return Ok(last);
    }
    if last == Some(parent) {
        return Ok(last);
    }
    add_way(nodes, parent, found)?;
    Ok(Some(parent))
}

// Adds the nodes below a number that stand above one of the others.
fn add_new(nodes: &[Node], from: usize, found: &mut Vec<usize>) -> Result<(), NoMemory>
    ensures { OnOk result (HasOlds nodes.now from found.new.items (length nodes.now)) }
{
    let mut last = None;
    for n in from..nodes.len() {
        last = add_above(nodes, from, n, last, found)?;
    }
    Ok(())
}

// Adds the node of an action and all that stand above it, where it is below a number.
fn add_act(nodes: &[Node], from: usize, act: &Act, found: &mut Vec<usize>) -> Result<(), NoMemory>
    ensures kept { OnOk result (Keeps found.old.items found.new.items) }
    ensures way { OnOk result (HasWayOf nodes.now from found.new.items act.now) }
{
    let Some(node) = act.node else {
        return Ok(());
    };
    let n = node as usize;
    if n >= from {
        return Ok(());
    }
    add_way(nodes, n, found)
}

// The same of each of these actions.
fn add_acts(
    nodes: &[Node],
    from: usize,
    fresh: &[Act],
    found: &mut Vec<usize>,
) -> Result<(), NoMemory>
    ensures kept { OnOk result (Keeps found.old.items found.new.items) }
    ensures ways { OnOk result (HasWaysOf nodes.now from found.new.items fresh.now (length fresh.now)) }
{
    for act in fresh {
        add_act(nodes, from, act, found)?;
    }
    Ok(())
}

/// The nodes below a number that stand above one of the others, or above the node of one of these
/// actions, or are the node of one; where each node's parent stands before it, all of them.
pub fn touched(
    alloc: Global,
    nodes: &[Node],
    from: usize,
    fresh: &[Act],
) -> Result<Vec<usize>, NoMemory>
    ensures { IfOk result (λ list. StandsEarlier nodes.now → HasTouched nodes.now from fresh.now list.items) }
{
    let mut found = Vec::new(alloc);
    add_new(nodes, from, &mut found)?;
    add_acts(nodes, from, fresh, &mut found)?;
    Ok(found)
}
