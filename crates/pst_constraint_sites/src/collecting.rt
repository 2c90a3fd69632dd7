//! The constraints of nodes, and of a whole scenario.
ghost use Rattle.std.specs.Prelude.{◌≡◌, ◌++◌, IfOk, OnOk, flat_map, map};
ghost use Rattle.std.specs.List.{enumerate_from};
ghost use Rattle.pst_model.specs.ModelView.{view_model, view_step};
ghost use Rattle.pst_known.specs.Known.{seen};
ghost use Rattle.pst_slots.specs.Stated.{statement_of as statement_in};
ghost use Rattle.pst_refusals.specs.Places.{ArePlaces};
ghost use Rattle.pst_constraint_sites.specs.Groups.{fill_groups, compound_groups, step_groups, stated_groups, node_groups, groups};
ghost use Rattle.pst_constraint_sites.specs.Views.{view_group};

use crate::listing::{add_acts, add_firsts, add_group};
use crate::parts::action_constraints;
use crate::site::{Group, Site};
use pst_base::NoMemory;
use pst_known::Scene;
use pst_model::{Model, Step};
use pst_refusals::{has_inlines, places_of, statement_of};
use pst_scen::{Fill, Node};
use std::alloc::Global;

// Adds those of the compound action of a node of this fill.
fn add_fill<'a>(
    groups: &mut Vec<Group<'a>>,
    model: &'a Model,
    node: usize,
    fill: &Fill,
) -> Result<(), NoMemory>
    ensures { OnOk result (map view_group groups.new.items ≡ map view_group groups.old.items ++ fill_groups (view_model model.now) node fill.now) }
{
    match fill {
        Fill::Compound { action, .. } => {
            let constraints = action_constraints(model, *action);
            add_group(groups, Site::Node { node }, constraints)
        }
        _ => Ok(()),
    }
}

// Adds those of a statement that a node stands for.
fn add_step<'a>(
    groups: &mut Vec<Group<'a>>,
    node: usize,
    top: usize,
    indices: Vec<u32>,
    step: &'a Step,
) -> Result<(), NoMemory>
    ensures { OnOk result (map view_group groups.new.items ≡ map view_group groups.old.items ++ step_groups node top indices.items (view_step step.now)) }
{
    match step {
        Step::Traverse { inline, .. } => {
            let site = Site::Traversal { node, top, indices };
            add_group(groups, site, inline.as_slice())
        }
        _ => Ok(()),
    }
}

// Adds those of the statement that a node stands for, if it stands for one.
fn add_stated<'a>(
    alloc: Global,
    groups: &mut Vec<Group<'a>>,
    model: &'a Model,
    nodes: &[Node],
    places: &[usize],
    node: usize,
) -> Result<(), NoMemory>
    requires { ArePlaces nodes.now places.now }
    ensures { OnOk result (map view_group groups.new.items ≡ map view_group groups.old.items ++ stated_groups node (statement_in (view_model model.now) nodes.now node)) }
{
    match statement_of(alloc, model, nodes, places, node)? {
        None => Ok(()),
        Some(found) => add_step(groups, node, found.top, found.indices, found.step),
    }
}

// Adds those of a node's action, and of the traversal that the node stands for.
fn add_node<'a>(
    alloc: Global,
    groups: &mut Vec<Group<'a>>,
    model: &'a Model,
    nodes: &[Node],
    places: &[usize],
    number: usize,
    node: &Node,
) -> Result<(), NoMemory>
    requires { ArePlaces nodes.now places.now }
    ensures { OnOk result (map view_group groups.new.items ≡ map view_group groups.old.items ++ node_groups (view_model model.now) nodes.now (number, node.now)) }
{
    add_fill(groups, model, number, &node.fill)?;
    add_stated(alloc, groups, model, nodes, places, number)
}

// Adds those of all compound actions.
fn add_fills<'a>(
    groups: &mut Vec<Group<'a>>,
    model: &'a Model,
    nodes: &[Node],
) -> Result<(), NoMemory>
    ensures { OnOk result (map view_group groups.new.items ≡ map view_group groups.old.items ++ flat_map (compound_groups (view_model model.now)) (enumerate_from 0 nodes.now)) }
{
    let mut number = 0;
    for node in nodes {
        add_fill(groups, model, number, &node.fill)?;
        number += 1;
    }
    Ok(())
}

// Adds those of all nodes, where traversals may have some too.
fn add_all<'a>(
    alloc: Global,
    groups: &mut Vec<Group<'a>>,
    model: &'a Model,
    nodes: &[Node],
) -> Result<(), NoMemory>
    ensures { OnOk result (map view_group groups.new.items ≡ map view_group groups.old.items ++ flat_map (node_groups (view_model model.now) nodes.now) (enumerate_from 0 nodes.now)) }
{
    let places = places_of(alloc, nodes)?;
    let mut number = 0;
    for node in nodes {
        add_node(alloc, groups, model, nodes, &places, number, node)?;
        number += 1;
    }
    Ok(())
}

// Adds those of all nodes. Statements are looked for only where some traversal of the model has a
// constraint.
fn add_nodes<'a>(
    alloc: Global,
    groups: &mut Vec<Group<'a>>,
    model: &'a Model,
    nodes: &[Node],
) -> Result<(), NoMemory>
    ensures { OnOk result (map view_group groups.new.items ≡ map view_group groups.old.items ++ flat_map (node_groups (view_model model.now) nodes.now) (enumerate_from 0 nodes.now)) }
{
    if has_inlines(model) {
        return add_all(alloc, groups, model, nodes);
    }
    add_fills(groups, model, nodes)?;
    Ok(())
}

/// The constraints of a scenario by their sites: by node, then by action, then by first object.
pub fn groups_of<'a>(alloc: Global, scene: &Scene<'a>) -> Result<Vec<Group<'a>>, NoMemory>
    ensures { IfOk result (λ found. map view_group found.items ≡ groups (view_model scene.now.model.now) (seen scene.now)) }
{
    let mut groups = Vec::new(alloc);
    add_nodes(alloc, &mut groups, scene.model, scene.nodes)?;
    add_acts(&mut groups, scene.model, scene.actions)?;
    add_firsts(&mut groups, scene.model, scene.firsts)?;
    Ok(groups)
}
