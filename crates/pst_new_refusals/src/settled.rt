//! Whether inline constraints are refused that look at a node behind a handle of the action round their
//! traversals.
ghost use Rattle.std.specs.Prelude.{◌≡◌, ◌⊎◌, length, false, nat_lt, nat_eq, IfOk, slice_get};
ghost use Rattle.std.specs.List.{list_any};
ghost use Rattle.pst_model.specs.ModelView.{view_model, view_step};
ghost use Rattle.pst_model.specs.Sound.{IsSound};
ghost use Rattle.pst_known.specs.Known.{seen};
ghost use Rattle.pst_new_refusals.specs.Named.{rows};
ghost use Rattle.pst_new_refusals.specs.Settled.{names_in, names_at, IsNearAt, AreNear, is_sequence, is_parallel, is_schedule, is_joined, AreLookingFree, IsSettled, IsSettledAt, AreSettledAt, AreSettledFrom};
ghost use Rattle.pst_new_refusals.specs.Newly.{AreBehindFree, IfNot};

use crate::looking::some_looking_refused;
use pst_base::NoMemory;
use pst_known::Scene;
use pst_model::Step;
use pst_refusals::statement_behind;
use pst_scen::{Fill, Node};
use std::alloc::Global;

// Whether inline constraints in the activity of the action of a node of this fill name a handle of it,
// by a list of the types.
fn some_named_in(named: &[Vec<u32>], fill: &Fill) -> bool
    ensures { result ≡ nat_lt 0 (length (names_in (rows named.now) fill.now)) }
{
    match fill {
        Fill::Compound { action, .. } => match named.get(*action as usize) {
            None => false,
            Some(names) => names.len() > 0,
        },
        _ => false,
    }
}

fn some_named_at(nodes: &[Node], named: &[Vec<u32>], n: usize) -> bool
    ensures { result ≡ nat_lt 0 (length (names_at (rows named.now) (slice_get nodes.now n))) }
{
    match nodes.get(n) {
        None => false,
        Some(node) => some_named_in(named, &node.fill),
    }
}

// The same of one of these nodes.
fn some_named(nodes: &[Node], named: &[Vec<u32>], list: &[usize]) -> bool
    ensures { IfNot result (AreNear nodes.now (rows named.now) list.now) }
{
    for n in list {
        if some_named_at(nodes, named, *n) {
            return true;
        }
    }
    false
}

fn has_handle(names: &[u32], handle: u32) -> bool
    ensures { result ≡ list_any (nat_eq handle) names.now }
{
    for name in names {
        if handle == *name {
            return true;
        }
    }
    false
}

// Whether they name this handle of it.
fn is_named_in(named: &[Vec<u32>], fill: &Fill, handle: u32) -> bool
    ensures { result ≡ list_any (nat_eq handle) (names_in (rows named.now) fill.now) }
{
    match fill {
        Fill::Compound { action, .. } => match named.get(*action as usize) {
            None => false,
            Some(names) => has_handle(names.as_slice(), handle),
        },
        _ => false,
    }
}

fn is_named_at(nodes: &[Node], named: &[Vec<u32>], top: usize, handle: u32) -> bool
    ensures { result ≡ list_any (nat_eq handle) (names_at (rows named.now) (slice_get nodes.now top)) }
{
    match nodes.get(top) {
        None => false,
        Some(node) => is_named_in(named, &node.fill, handle),
    }
}

fn is_sequence(fill: &Fill) -> bool
    ensures { result ≡ is_sequence fill.now }
{
    match fill {
        Fill::Sequence => true,
        _ => false,
    }
}

fn is_parallel(fill: &Fill) -> bool
    ensures { result ≡ is_parallel fill.now }
{
    match fill {
        Fill::Parallel => true,
        _ => false,
    }
}

fn is_schedule(fill: &Fill) -> bool
    ensures { result ≡ is_schedule fill.now }
{
    match fill {
        Fill::Schedule => true,
        _ => false,
    }
}

fn is_joined(fill: &Fill) -> bool
    ensures { result ≡ is_joined fill.now }
{
    match fill {
        Fill::Joined { .. } => true,
        _ => false,
    }
}

// Whether an inline constraint is refused that looks behind the handle of the action of node `top`,
// where one names it.
fn some_named_refused(
    alloc: Global,
    scene: &Scene<'_>,
    named: &[Vec<u32>],
    top: usize,
    handle: u32,
) -> Result<bool, NoMemory>
    requires { IsSound (view_model scene.now.model.now) }
    ensures { IfOk result (λ r. IfNot r ((list_any (nat_eq handle) (names_at (rows named.now) (slice_get scene.now.nodes.now top)) ≡ false) ⊎ AreLookingFree (view_model scene.now.model.now) (seen scene.now) top handle (length scene.now.nodes.now))) }
{
    if !is_named_at(scene.nodes, named, top, handle) {
        return Ok(false);
    }
    let refused = some_looking_refused(alloc, scene, top, handle)?;
    Ok(refused)
}

// Of a node of this fill that stands for a statement of the activity of the action of node `top`: whether
// an inline constraint is refused that looks behind its handle, or it is a block that the node doesn't
// fill, which no list of choices makes.
fn is_unsettled(
    alloc: Global,
    scene: &Scene<'_>,
    named: &[Vec<u32>],
    top: usize,
    fill: &Fill,
    step: &Step,
) -> Result<bool, NoMemory>
    requires { IsSound (view_model scene.now.model.now) }
    ensures { IfOk result (λ r. IfNot r (IsSettled (view_model scene.now.model.now) (seen scene.now) (names_at (rows named.now) (slice_get scene.now.nodes.now top)) top fill.now (view_step step.now))) }
{
    match step {
        Step::Traverse { handle, .. } => match handle {
            None => Ok(false),
            Some(handle) => some_named_refused(alloc, scene, named, top, *handle),
        },
        Step::Sequence(_) => Ok(!is_sequence(fill)),
        Step::Parallel(_) => Ok(!is_parallel(fill)),
        Step::Schedule(_) => Ok(!is_schedule(fill)),
        Step::Joined { .. } => Ok(!is_joined(fill)),
        _ => Ok(false),
    }
}

// The same of the node of that number.
fn is_node_unsettled(
    alloc: Global,
    scene: &Scene<'_>,
    named: &[Vec<u32>],
    n: usize,
) -> Result<bool, NoMemory>
    requires { IsSound (view_model scene.now.model.now) }
    ensures { IfOk result (λ r. IfNot r (IsSettledAt (view_model scene.now.model.now) (seen scene.now) (rows named.now) n)) }
{
    let Some(node) = scene.nodes.get(n) else {
        return Ok(false);
    };
    match statement_behind(alloc, scene.model, scene.nodes, n)? {
        None => Ok(false),
        Some(found) => is_unsettled(alloc, scene, named, found.top, &node.fill, found.step),
    }
}

// The same of one of these nodes.
fn some_unsettled(
    alloc: Global,
    scene: &Scene<'_>,
    named: &[Vec<u32>],
    list: &[usize],
) -> Result<bool, NoMemory>
    requires { IsSound (view_model scene.now.model.now) }
    ensures { IfOk result (λ r. IfNot r (AreSettledAt (view_model scene.now.model.now) (seen scene.now) (rows named.now) list.now)) }
{
    for n in list {
        if is_node_unsettled(alloc, scene, named, *n)? {
            return Ok(true);
        }
    }
    Ok(false)
}

// The same of one of the nodes from a number on.
fn some_unsettled_from(
    alloc: Global,
    scene: &Scene<'_>,
    named: &[Vec<u32>],
    from: usize,
) -> Result<bool, NoMemory>
    requires { IsSound (view_model scene.now.model.now) }
    ensures { IfOk result (λ r. IfNot r (AreSettledFrom (view_model scene.now.model.now) (seen scene.now) (rows named.now) from (length scene.now.nodes.now))) }
{
    for n in from..scene.nodes.len() {
        if is_node_unsettled(alloc, scene, named, n)? {
            return Ok(true);
        }
    }
    Ok(false)
}

/// Whether an inline constraint is refused that looks at one of these nodes, or at one of those from a
/// number on, behind a handle of the action round its traversal. Where inline constraints in the
/// activities of these nodes name no handle of their actions, nothing is looked at.
pub(crate) fn some_behind_refused(
    alloc: Global,
    scene: &Scene<'_>,
    named: &[Vec<u32>],
    from: usize,
    list: &[usize],
) -> Result<bool, NoMemory>
    requires { IsSound (view_model scene.now.model.now) }
    ensures { IfOk result (λ r. IfNot r (AreBehindFree (view_model scene.now.model.now) (seen scene.now) (rows named.now) from list.now)) }
{
    if !some_named(scene.nodes, named, list) {
        return Ok(false);
    }
    let old = some_unsettled(alloc, scene, named, list)?;
    if old {
        return Ok(true);
    }
    let new = some_unsettled_from(alloc, scene, named, from)?;
    Ok(new)
}
