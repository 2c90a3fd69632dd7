//! Actions whose references have no source yet.
ghost use Rattle.std.specs.Prelude.{◌≡◌, IfOk, length, map, IsTrue};
ghost use Rattle.std.specs.List.{enumerate_from};
ghost use Rattle.pst_model.specs.ModelView.{view_model};
ghost use Rattle.pst_model.specs.Served.{IsInOrder};
ghost use Rattle.pst_scen.specs.Scenarios.{leaves_of};
ghost use Rattle.pst_legal.specs.Growing.{open_reference, open_references, open_act};
ghost use Rattle.pst_legal.specs.Types.{type_of};
ghost use Rattle.pst_open_ends.specs.Changes.{opened, is_leaf};

use crate::beyond::{pool_of, reference_flow};
use pst_base::{Items, NoMemory};
use pst_model::{Model, Reference};
use pst_scen::{Act, Fill, Filled, Link, Node};
use std::alloc::Global;

// References of an action that aren't linked yet, with the pools that serve them.
fn open_each(
    alloc: Global,
    model: &Model,
    in_order: bool,
    action: u32,
    instance: u32,
    references: &[Reference],
) -> Result<Vec<Filled>, NoMemory>
    requires { IsTrue in_order → IsInOrder (view_model model.now).served }
    ensures { IfOk result (λ found. found.items ≡ map (open_reference (view_model model.now) action instance) (enumerate_from 0 references.now)) }
{
    let mut found = Vec::new(alloc);
    let mut number = 0;
    for reference in references {
        found.push(Filled {
            pool: pool_of(
                model.served.as_slice(),
                in_order,
                action as usize,
                instance as usize,
                number,
            ),
            flow: reference_flow(model, reference),
            values: Items::empty(alloc),
            link: Link::Nothing,
        })?;
        number += 1;
    }
    Ok(found)
}

// The references of an action of a type in an instance.
fn open_references(
    alloc: Global,
    model: &Model,
    in_order: bool,
    action: u32,
    instance: u32,
) -> Result<Vec<Filled>, NoMemory>
    requires { IsTrue in_order → IsInOrder (view_model model.now).served }
    ensures { IfOk result (λ found. found.items ≡ open_references (view_model model.now) action instance (type_of (view_model model.now) action)) }
{
    match model.actions.get(action as usize) {
        None => Ok(Vec::new(alloc)),
        Some(kind) => open_each(
            alloc,
            model,
            in_order,
            action,
            instance,
            kind.references.as_slice(),
        ),
    }
}

/// An action of a type in an instance, of which nothing else is known. `in_order`: the entries for what
/// serves references stand in order.
pub(crate) fn open_act(
    alloc: Global,
    model: &Model,
    in_order: bool,
    action: u32,
    instance: u32,
    node: Option<u32>,
) -> Result<Act, NoMemory>
    requires { IsTrue in_order → IsInOrder (view_model model.now).served }
    ensures { IfOk result (λ act. act ≡ open_act (view_model model.now) action instance node) }
{
    let references = open_references(alloc, model, in_order, action, instance)?;
    Ok(Act {
        action,
        instance,
        node,
        fields: Items::empty(alloc),
        references: Items::from_vec(references),
        claims: Items::empty(alloc),
    })
}

/// The leaves with their references, none of which is linked yet. `in_order`: the entries for what
/// serves references stand in order.
pub fn open_leaves(
    alloc: Global,
    model: &Model,
    in_order: bool,
    leaves: &[Act],
) -> Result<Vec<Act>, NoMemory>
    requires { IsTrue in_order → IsInOrder (view_model model.now).served }
    ensures { IfOk result (λ acts. acts.items ≡ map (opened (view_model model.now)) leaves.now) }
{
    let mut acts = Vec::new(alloc);
    for leaf in leaves {
        let act = open_act(
            alloc,
            model,
            in_order,
            leaf.action,
            leaf.instance,
            leaf.node,
        )?;
        acts.push(act)?;
    }
    Ok(acts)
}

fn is_leaf(fill: &Fill) -> bool
    ensures { is_leaf fill.now ≡ result }
{
    match fill {
        Fill::Leaf { .. } => true,
        _ => false,
    }
}

/// How many of the nodes are leaves.
pub fn leaf_count(nodes: &[Node]) -> usize
    ensures { result ≡ length (leaves_of nodes.now) }
{
    let mut count = 0;
    for node in nodes {
        if is_leaf(&node.fill) {
            count += 1;
        }
    }
    count
}
