//! Whether a constraint may newly be refused.
ghost use Rattle.std.specs.Prelude.{◌≡◌, ◌⊎◌, length, false, not, ◌&&◌, IfOk};
ghost use Rattle.std.specs.List.{list_any};
ghost use Rattle.pst_model.specs.ModelView.{view_model};
ghost use Rattle.pst_model.specs.Sound.{IsSound};
ghost use Rattle.pst_known.specs.Known.{seen};
ghost use Rattle.pst_new_refusals.specs.Far.{AreFarOf};
ghost use Rattle.pst_new_refusals.specs.Named.{rows};
ghost use Rattle.pst_refusals.specs.Answers.{StandEarlier};
ghost use Rattle.pst_refusals.specs.Failing.{fails};
ghost use Rattle.pst_refusals.specs.Inlines.{has_inlines};
ghost use Rattle.pst_slots.specs.Listed.{of_stated};
ghost use Rattle.pst_slots.specs.Stated.{statement_of};
ghost use Rattle.pst_new_refusals.specs.Newly.{is_pool_refused, is_act_refused, is_leaf, is_own_refused, AreFree, AreTraversedFree, ArePlainFree, AreInlinesFree, IsFreeAt, AreFreeAt, AreStatedFreeAt, AreTouchedFree, IfNot, StaysFree};

use crate::far::FarTypes;
use crate::settled::some_behind_refused;
use pst_base::NoMemory;
use pst_known::Scene;
use pst_model::Model;
use pst_refusals::{
    is_act_refused, is_compound_refused, is_first_refused, is_inline_refused, is_made_refused,
};
use pst_scen::{Act, Fill, Filled, Node};
use pst_touched::touched;
use std::alloc::Global;

// Of the compound actions of the nodes from a number on.
fn some_node_refused(
    alloc: Global,
    scene: &Scene<'_>,
    nodes: &[Node],
    from: usize,
) -> Result<bool, NoMemory>
    requires sound { IsSound (view_model scene.now.model.now) }
    requires nodes { nodes.now ≡ (seen scene.now).nodes }
    ensures { IfOk result (λ r. IfNot r (AreFree (view_model scene.now.model.now) (seen scene.now) from (length nodes.now))) }
{
    for n in from..nodes.len() {
        if is_compound_refused(alloc, scene, n, &nodes[n].fill)? {
            return Ok(true);
        }
    }
    Ok(false)
}

// Of the first objects of the pools of an action's references.
fn some_pool_refused(
    alloc: Global,
    scene: &Scene<'_>,
    references: &[Filled],
) -> Result<bool, NoMemory>
    requires { IsSound (view_model scene.now.model.now) }
    ensures { IfOk result (λ r. r ≡ list_any (is_pool_refused (view_model scene.now.model.now) (seen scene.now)) references.now) }
{
    for filled in references {
        if is_first_refused(alloc, scene, filled.pool)? {
            return Ok(true);
        }
    }
    Ok(false)
}

// Of an action, of what it writes, claims and refers to.
fn is_new_refused(alloc: Global, scene: &Scene<'_>, act: &Act) -> Result<bool, NoMemory>
    requires { IsSound (view_model scene.now.model.now) }
    ensures { IfOk result (λ r. r ≡ is_act_refused (view_model scene.now.model.now) (seen scene.now) act.now) }
{
    if is_act_refused(alloc, scene, 0, act)? {
        return Ok(true);
    }
    some_pool_refused(alloc, scene, act.references.as_slice())
}

// The same of each of these actions.
fn some_new_refused(alloc: Global, scene: &Scene<'_>, fresh: &[Act]) -> Result<bool, NoMemory>
    requires { IsSound (view_model scene.now.model.now) }
    ensures { IfOk result (λ r. r ≡ list_any (is_act_refused (view_model scene.now.model.now) (seen scene.now)) fresh.now) }
{
    for act in fresh {
        if is_new_refused(alloc, scene, act)? {
            return Ok(true);
        }
    }
    Ok(false)
}

// An inline constraint at the traversal of the compound action of a node of this fill.
fn is_traversal_refused(
    alloc: Global,
    scene: &Scene<'_>,
    n: usize,
    fill: &Fill,
) -> Result<bool, NoMemory>
    requires { IsSound (view_model scene.now.model.now) }
    ensures { IfOk result (λ r. StandEarlier scene.now.nodes.now → r ≡ (not (is_leaf fill.now) && list_any (fails false) (of_stated (view_model scene.now.model.now) (seen scene.now) n (statement_of (view_model scene.now.model.now) scene.now.nodes.now n)))) }
{
    match fill {
        Fill::Leaf { .. } => Ok(false),
        _ => is_inline_refused(alloc, scene, n),
    }
}

// Of the nodes from a number on that are no leaves.
fn some_traversal_refused(
    alloc: Global,
    scene: &Scene<'_>,
    nodes: &[Node],
    from: usize,
) -> Result<bool, NoMemory>
    requires sound { IsSound (view_model scene.now.model.now) }
    requires nodes { nodes.now ≡ (seen scene.now).nodes }
    ensures { IfOk result (λ r. IfNot r (AreTraversedFree (view_model scene.now.model.now) (seen scene.now) from (length nodes.now))) }
{
    for n in from..nodes.len() {
        if is_traversal_refused(alloc, scene, n, &nodes[n].fill)? {
            return Ok(true);
        }
    }
    Ok(false)
}

// An inline constraint at the traversal of an action.
fn is_own_refused(alloc: Global, scene: &Scene<'_>, act: &Act) -> Result<bool, NoMemory>
    requires { IsSound (view_model scene.now.model.now) }
    ensures { IfOk result (λ r. StandEarlier scene.now.nodes.now → r ≡ is_own_refused (view_model scene.now.model.now) (seen scene.now) act.now) }
{
    match act.node {
        None => Ok(false),
        Some(n) => is_made_refused(alloc, scene, n as usize, act),
    }
}

// The same of each of these actions.
fn some_own_refused(alloc: Global, scene: &Scene<'_>, fresh: &[Act]) -> Result<bool, NoMemory>
    requires { IsSound (view_model scene.now.model.now) }
    ensures { IfOk result (λ r. StandEarlier scene.now.nodes.now → r ≡ list_any (is_own_refused (view_model scene.now.model.now) (seen scene.now)) fresh.now) }
{
    for act in fresh {
        if is_own_refused(alloc, scene, act)? {
            return Ok(true);
        }
    }
    Ok(false)
}

// Of new nodes and actions, what stands at their traversals.
fn some_inline_refused(
    alloc: Global,
    scene: &Scene<'_>,
    nodes: &[Node],
    from: usize,
    fresh: &[Act],
) -> Result<bool, NoMemory>
    requires sound { IsSound (view_model scene.now.model.now) }
    requires nodes { nodes.now ≡ (seen scene.now).nodes }
    ensures { IfOk result (λ r. IfNot r (AreInlinesFree (view_model scene.now.model.now) (seen scene.now) from fresh.now)) }
{
    let traversed = some_traversal_refused(alloc, scene, nodes, from)?;
    if traversed {
        return Ok(true);
    }
    let own = some_own_refused(alloc, scene, fresh)?;
    Ok(own)
}

// What doesn't stand at traversals.
fn some_plain_refused(
    alloc: Global,
    scene: &Scene<'_>,
    nodes: &[Node],
    from: usize,
    fresh: &[Act],
) -> Result<bool, NoMemory>
    requires sound { IsSound (view_model scene.now.model.now) }
    requires nodes { nodes.now ≡ (seen scene.now).nodes }
    ensures { IfOk result (λ r. IfNot r (ArePlainFree (view_model scene.now.model.now) (seen scene.now) from fresh.now)) }
{
    let old = some_node_refused(alloc, scene, nodes, from)?;
    if old {
        return Ok(true);
    }
    let new = some_new_refused(alloc, scene, fresh)?;
    Ok(new)
}

// Of the compound action of a node.
fn is_node_refused(alloc: Global, scene: &Scene<'_>, n: usize) -> Result<bool, NoMemory>
    requires { IsSound (view_model scene.now.model.now) }
    ensures { IfOk result (λ r. IfNot r (IsFreeAt (view_model scene.now.model.now) (seen scene.now) n)) }
{
    match scene.nodes.get(n) {
        None => Ok(false),
        Some(node) => {
            let refused = is_compound_refused(alloc, scene, n, &node.fill)?;
            Ok(refused)
        }
    }
}

// Of the compound actions of these nodes.
fn some_listed_refused(alloc: Global, scene: &Scene<'_>, list: &[usize]) -> Result<bool, NoMemory>
    requires { IsSound (view_model scene.now.model.now) }
    ensures { IfOk result (λ r. IfNot r (AreFreeAt (view_model scene.now.model.now) (seen scene.now) list.now)) }
{
    for n in list {
        if is_node_refused(alloc, scene, *n)? {
            return Ok(true);
        }
    }
    Ok(false)
}

// An inline constraint at the traversals of these nodes.
fn some_listed_stated(alloc: Global, scene: &Scene<'_>, list: &[usize]) -> Result<bool, NoMemory>
    requires { IsSound (view_model scene.now.model.now) }
    ensures { IfOk result (λ r. IfNot r (AreStatedFreeAt (view_model scene.now.model.now) (seen scene.now) list.now)) }
{
    for n in list {
        if is_inline_refused(alloc, scene, *n)? {
            return Ok(true);
        }
    }
    Ok(false)
}

// The same, where the model has inline constraints.
fn some_stated_at(
    alloc: Global,
    scene: &Scene<'_>,
    inlines: bool,
    list: &[usize],
) -> Result<bool, NoMemory>
    requires { IsSound (view_model scene.now.model.now) }
    ensures { IfOk result (λ r. IfNot r ((inlines ≡ false) ⊎ AreStatedFreeAt (view_model scene.now.model.now) (seen scene.now) list.now)) }
{
    if !inlines {
        return Ok(false);
    }
    let refused = some_listed_stated(alloc, scene, list)?;
    Ok(refused)
}

// Of old nodes that a choice touched: their compound actions, what stands at their traversals, and the
// inline constraints that look at them, or at new nodes, behind a handle of the action round their own
// traversals.
fn some_touched_refused(
    alloc: Global,
    scene: &Scene<'_>,
    named: &[Vec<u32>],
    inlines: bool,
    from: usize,
    fresh: &[Act],
) -> Result<bool, NoMemory>
    requires { IsSound (view_model scene.now.model.now) }
    ensures { IfOk result (λ r. IfNot r (AreTouchedFree (view_model scene.now.model.now) (seen scene.now) (rows named.now) inlines from fresh.now)) }
{
    let list = touched(alloc, scene.nodes, from, fresh)?;
    let behind = some_behind_refused(alloc, scene, named, from, &list)?;
    if behind {
        return Ok(true);
    }
    let listed = some_listed_refused(alloc, scene, &list)?;
    if listed {
        return Ok(true);
    }
    let stated = some_stated_at(alloc, scene, inlines, &list)?;
    Ok(stated)
}

// What stands at traversals, where the model has inline constraints.
fn some_stated_refused(
    alloc: Global,
    scene: &Scene<'_>,
    inlines: bool,
    nodes: &[Node],
    from: usize,
    fresh: &[Act],
) -> Result<bool, NoMemory>
    requires sound { IsSound (view_model scene.now.model.now) }
    requires nodes { nodes.now ≡ (seen scene.now).nodes }
    ensures { IfOk result (λ r. IfNot r ((inlines ≡ false) ⊎ AreInlinesFree (view_model scene.now.model.now) (seen scene.now) from fresh.now)) }
{
    if !inlines {
        return Ok(false);
    }
    let refused = some_inline_refused(alloc, scene, nodes, from, fresh)?;
    Ok(refused)
}

// What belongs to old nodes that a choice touched, where some constraint looks behind a handle.
fn some_over_refused(
    alloc: Global,
    scene: &Scene<'_>,
    far: &FarTypes,
    inlines: bool,
    from: usize,
    fresh: &[Act],
) -> Result<bool, NoMemory>
    requires { IsSound (view_model scene.now.model.now) }
    ensures { IfOk result (λ r. IfNot r ((far.now.some ≡ false) ⊎ AreTouchedFree (view_model scene.now.model.now) (seen scene.now) (rows far.now.named.items) inlines from fresh.now)) }
{
    if !far.some {
        return Ok(false);
    }
    let refused = some_touched_refused(alloc, scene, &far.named, inlines, from, fresh)?;
    Ok(refused)
}

/// Whether a constraint may newly be refused. What is looked at, where no value is read: the compound
/// actions of the nodes from a number on, new actions, what they write, claim and refer to, and, where
/// the model has inline constraints, the traversals of these; where some constraint looks behind a
/// handle, also the compound actions above these. Where nothing of that is refused, nothing of a
/// scenario of these nodes and actions is that goes on by the new ones from one of which nothing was.
/// What that takes doesn't grow with the scenario but by the nodes that stand before a new one in the
/// same activity, and by what handles lead through. The actions are only looked at where some constraint
/// looks behind a handle.
pub fn some_newly_refused(
    alloc: Global,
    model: &Model,
    far: &FarTypes,
    inlines: bool,
    nodes: &[Node],
    actions: &[Act],
    from: usize,
    fresh: &[Act],
) -> Result<bool, NoMemory>
    requires sound { IsSound (view_model model.now) }
    requires far { AreFarOf (view_model model.now) far.now }
    requires inlines { inlines ≡ false → has_inlines (view_model model.now) ≡ false }
    requires earlier { StandEarlier nodes.now }
    ensures { IfOk result (λ r. IfNot r (StaysFree (view_model model.now) far.now.some nodes.now actions.now from fresh.now)) }
{
    let scene = Scene {
        model,
        level: 0,
        nodes,
        actions,
        firsts: &[],
    };
    let plain = some_plain_refused(alloc, &scene, nodes, from, fresh)?;
    if plain {
        return Ok(true);
    }
    let stated = some_stated_refused(alloc, &scene, inlines, nodes, from, fresh)?;
    if stated {
        return Ok(true);
    }
    let over = some_over_refused(alloc, &scene, far, inlines, from, fresh)?;
    Ok(over)
}
