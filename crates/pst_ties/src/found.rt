//! What the binds of a filled-in activity join.
ghost use Rattle.std.specs.Prelude.{◌≡◌, ◌++◌, IfOk, OnOk, map, option_to_list, true};
ghost use Rattle.std.specs.List.{flat_map, enumerate_from};
ghost use Rattle.std.specs.Option.{option_map};
ghost use Rattle.pst_model.specs.ModelView.{view_model};
ghost use Rattle.pst_legal.specs.Binds.{bound_by, bounds_of, ties_at};
ghost use Rattle.pst_ties.specs.Tieds.{bound_of, binds_of, binds_in};
ghost use Rattle.pst_handle_nodes.specs.Children.{are_behind};

use crate::handles::act_behind;
use crate::tied::{End, Tied};
use pst_base::NoMemory;
use pst_handle_nodes::are_behind;
use pst_model::{Content, Model, Tie};
use pst_scen::{Fill, Node};
use std::alloc::Global;

// What a bind joins in the activity of the compound action of a node. `behind`: each node is
// known to stand behind its parent.
fn tied_by(
    alloc: Global,
    model: &Model,
    nodes: &[Node],
    behind: bool,
    top: usize,
    tie: &Tie,
) -> Result<Option<Tied>, NoMemory>
    requires { behind ≡ true → are_behind 0 nodes.now ≡ true }
    ensures { IfOk result (λ tied. option_map bound_of tied ≡ bound_by (view_model model.now) nodes.now top tie.now) }
{
    let Some(from) = act_behind(alloc, model, nodes, behind, top, tie.from_handle)? else {
        return Ok(None);
    };
    let Some(to) = act_behind(alloc, model, nodes, behind, top, tie.to_handle)? else {
        return Ok(None);
    };
    Ok(Some(Tied {
        from: End {
            act: from,
            reference: tie.from_reference as usize,
        },
        to: End {
            act: to,
            reference: tie.to_reference as usize,
        },
    }))
}

// Adds what these binds join.
fn add_ties(
    alloc: Global,
    found: &mut Vec<Tied>,
    model: &Model,
    nodes: &[Node],
    behind: bool,
    top: usize,
    ties: &[Tie],
) -> Result<(), NoMemory>
    requires { behind ≡ true → are_behind 0 nodes.now ≡ true }
    ensures { OnOk result (map bound_of found.new.items ≡ map bound_of found.old.items ++ flat_map (λ tie. option_to_list (bound_by (view_model model.now) nodes.now top tie)) ties.now) }
{
    for tie in ties {
        if let Some(tied) = tied_by(alloc, model, nodes, behind, top, tie)? {
            found.push(tied)?;
        }
    }
    Ok(())
}

// The binds of the activity of an action type.
fn binds_of(model: &Model, action: usize) -> &[Tie]
    ensures { result.now ≡ binds_of (view_model model.now) action }
{
    match model.actions.get(action) {
        None => &[],
        Some(kind) => match &kind.content {
            Content::Atomic(_) => &[],
            Content::Compound(activity) => activity.binds.as_slice(),
        },
    }
}

// The binds of the activity of the compound action of a node.
fn ties_in<'a>(model: &'a Model, fill: &Fill) -> &'a [Tie]
    ensures { result.now ≡ binds_in (view_model model.now) fill.now }
{
    match fill {
        Fill::Compound { action, .. } => binds_of(model, *action as usize),
        _ => &[],
    }
}

// The same, by the number of the node.
fn ties_at<'a>(model: &'a Model, nodes: &[Node], top: usize) -> &'a [Tie]
    ensures { result.now ≡ ties_at (view_model model.now) nodes.now top }
{
    match nodes.get(top) {
        None => &[],
        Some(node) => ties_in(model, &node.fill),
    }
}

/// What the binds of the activities join, by node and by the text of the activity.
pub(crate) fn all_ties(alloc: Global, model: &Model, nodes: &[Node]) -> Result<Vec<Tied>, NoMemory>
    ensures { IfOk result (λ found. map bound_of found.items ≡ bounds_of (view_model model.now) nodes.now) }
{
    let behind = are_behind(nodes);
    let mut found = Vec::new(alloc);
    for top in 0..nodes.len() {
        let ties = ties_at(model, nodes, top);
        add_ties(alloc, &mut found, model, nodes, behind, top, ties)?;
    }
    Ok(found)
}
