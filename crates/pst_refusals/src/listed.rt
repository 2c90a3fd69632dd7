//! The constraints of nodes.
ghost use Rattle.std.specs.Prelude.{◌≡◌, IfOk, flat_map};
ghost use Rattle.std.specs.List.{list_any, enumerate_from};
ghost use Rattle.pst_model.specs.ModelView.{view_model, view_step};
ghost use Rattle.pst_model.specs.Sound.{IsSound};
ghost use Rattle.pst_known.specs.Known.{seen};
ghost use Rattle.pst_slots.specs.Listed.{of_fill, of_step, of_stated, of_node};
ghost use Rattle.pst_slots.specs.Stated.{statement_of as statement_in};
ghost use Rattle.pst_refusals.specs.Failing.{fails};
ghost use Rattle.pst_refusals.specs.Places.{ArePlaces};
ghost use Rattle.pst_refusals.specs.Failing.{of_numbered};

use crate::fails::some_fails;
use crate::inlines::has_inlines;
use crate::places::places_of;
use crate::site::{InlineSite, NodeSite};
use crate::statement::statement_of;
use pst_base::NoMemory;
use pst_known::Scene;
use pst_model::Step;
use pst_scen::{Fill, Node};
use std::alloc::Global;

/// Of the compound action of a node of this fill.
pub(crate) fn of_fill(
    alloc: Global,
    scene: &Scene<'_>,
    n: usize,
    fill: &Fill,
    by_values: bool,
) -> Result<bool, NoMemory>
    requires { IsSound (view_model scene.now.model.now) }
    ensures { IfOk result (λ r. r ≡ list_any (fails by_values) (of_fill (view_model scene.now.model.now) (seen scene.now) n fill.now)) }
{
    match fill {
        Fill::Compound { action, .. } => match scene.model.actions.get(*action as usize) {
            None => Ok(false),
            Some(kind) => {
                let site = NodeSite { scene, node: n };
                some_fails(alloc, &site, kind.constraints.as_slice(), by_values)
            }
        },
        _ => Ok(false),
    }
}

/// Of a statement that a node stands for.
pub(crate) fn of_step(
    alloc: Global,
    scene: &Scene<'_>,
    n: usize,
    top: usize,
    indices: &[u32],
    step: &Step,
    by_values: bool,
) -> Result<bool, NoMemory>
    requires { IsSound (view_model scene.now.model.now) }
    ensures { IfOk result (λ r. r ≡ list_any (fails by_values) (of_step (view_model scene.now.model.now) (seen scene.now) n top indices.now (view_step step.now))) }
{
    match step {
        Step::Traverse { inline, .. } => {
            let site = InlineSite {
                scene,
                node: n,
                top,
                indices,
            };
            some_fails(alloc, &site, inline.as_slice(), by_values)
        }
        _ => Ok(false),
    }
}

// Of the statement that a node stands for, if it stands for one.
fn of_stated(
    alloc: Global,
    scene: &Scene<'_>,
    places: &[usize],
    n: usize,
    by_values: bool,
) -> Result<bool, NoMemory>
    requires sound { IsSound (view_model scene.now.model.now) }
    requires places { ArePlaces scene.now.nodes.now places.now }
    ensures { IfOk result (λ r. r ≡ list_any (fails by_values) (of_stated (view_model scene.now.model.now) (seen scene.now) n (statement_in (view_model scene.now.model.now) scene.now.nodes.now n))) }
{
    match statement_of(alloc, scene.model, scene.nodes, places, n)? {
        None => Ok(false),
        Some(found) => of_step(
            alloc,
            scene,
            n,
            found.top,
            found.indices.as_slice(),
            found.step,
            by_values,
        ),
    }
}

// Of a node's action, and of the traversal that the node stands for.
fn of_node(
    alloc: Global,
    scene: &Scene<'_>,
    places: &[usize],
    n: usize,
    node: &Node,
    by_values: bool,
) -> Result<bool, NoMemory>
    requires sound { IsSound (view_model scene.now.model.now) }
    requires places { ArePlaces scene.now.nodes.now places.now }
    ensures { IfOk result (λ r. r ≡ list_any (fails by_values) (of_node (view_model scene.now.model.now) (seen scene.now) (n, node.now))) }
{
    if of_fill(alloc, scene, n, &node.fill, by_values)? {
        return Ok(true);
    }
    of_stated(alloc, scene, places, n, by_values)
}

// Whether a constraint of a compound action fails.
fn of_fills(alloc: Global, scene: &Scene<'_>, by_values: bool) -> Result<bool, NoMemory>
    requires { IsSound (view_model scene.now.model.now) }
    ensures { IfOk result (λ r. r ≡ list_any (fails by_values) (flat_map (of_numbered (view_model scene.now.model.now) (seen scene.now)) (enumerate_from 0 scene.now.nodes.now))) }
{
    let mut n = 0;
    for node in scene.nodes {
        if of_fill(alloc, scene, n, &node.fill, by_values)? {
            return Ok(true);
        }
        n += 1;
    }
    Ok(false)
}

// Whether a constraint of a node fails, where traversals may have some too.
fn of_all(alloc: Global, scene: &Scene<'_>, by_values: bool) -> Result<bool, NoMemory>
    requires { IsSound (view_model scene.now.model.now) }
    ensures { IfOk result (λ r. r ≡ list_any (fails by_values) (flat_map (of_node (view_model scene.now.model.now) (seen scene.now)) (enumerate_from 0 scene.now.nodes.now))) }
{
    let places = places_of(alloc, scene.nodes)?;
    let mut n = 0;
    for node in scene.nodes {
        if of_node(alloc, scene, &places, n, node, by_values)? {
            return Ok(true);
        }
        n += 1;
    }
    Ok(false)
}

/// Whether a constraint of a node fails. Statements are looked for only where some traversal of the
/// model has a constraint.
pub(crate) fn of_nodes(alloc: Global, scene: &Scene<'_>, by_values: bool) -> Result<bool, NoMemory>
    requires { IsSound (view_model scene.now.model.now) }
    ensures { IfOk result (λ r. r ≡ list_any (fails by_values) (flat_map (of_node (view_model scene.now.model.now) (seen scene.now)) (enumerate_from 0 scene.now.nodes.now))) }
{
    if has_inlines(scene.model) {
        return of_all(alloc, scene, by_values);
    }
    let failed = of_fills(alloc, scene, by_values)?;
    Ok(failed)
}
