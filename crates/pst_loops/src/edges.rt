//! What leads to what among declarations, as the edges of a graph.
ghost use Rattle.std.specs.Prelude.{◌≡◌, ◌<◌, ℕ, length, Some, None, IfOk, OnOk, IsTrue};
ghost use Rattle.pst_loops.specs.Edges.{AddsEdges, IsAdded, IsBaseBy, IsComponentBy, IsEdge, IsEdgeFrom, scope_of_instance};
ghost use Rattle.pst_loops.specs.Graph.{HasEdge};
ghost use Rattle.pst_loops.specs.Numbers.{AreInOrderTo, AreRows};

use crate::numbers::{number_at, vertex_of};
use pst_ast::{Declaration, Scope, Sort};
use pst_base::{NoMemory, Place};
use pst_index::Index;
use std::alloc::Global;

// Rows without an edge.
fn without_edges(alloc: Global, count: usize) -> Result<Vec<Vec<u32>>, NoMemory>
    ensures long { IfOk result (λ rows. length rows.items ≡ count) }
    ensures none { IfOk result (λ rows. (a b : ℕ) → HasEdge rows.items a b → ⊥) }
{
    let mut rows = Vec::new(alloc);
    for _at in 0..count {
        rows.push(Vec::new(alloc))?;
    }
    Ok(rows)
}

// Adds an edge.
fn add_edge(rows: &mut [Vec<u32>], from: usize, to: u32) -> Result<(), NoMemory>
    requires { from < length rows.old }
    ensures { OnOk result (IsAdded (IsEdge from to) rows.old rows.new) }
{
    rows[from].push(to)?;
    Ok(())
}

// Adds an edge from each declaration at a place.
fn add_from_each(
    declarations: &[Declaration],
    place: Place,
    to: u32,
    rows: &mut [Vec<u32>],
) -> Result<(), NoMemory>
    requires { length rows.old ≡ length declarations.now }
    ensures { OnOk result (IsAdded (IsEdgeFrom declarations.now place to) rows.old rows.new) }
{
    for from in 0..declarations.len() {
        if declarations[from].name.place == place {
            add_edge(rows, from, to)?;
        }
    }
    Ok(())
}

// The same. In a list that is in order there is at most one.
fn add_from(
    declarations: &[Declaration],
    in_order: bool,
    place: Place,
    to: u32,
    rows: &mut [Vec<u32>],
) -> Result<(), NoMemory>
    requires order { IsTrue in_order → AreInOrderTo (length declarations.now) declarations.now }
    requires long { length rows.old ≡ length declarations.now }
    ensures { OnOk result (IsAdded (IsEdgeFrom declarations.now place to) rows.old rows.new) }
{
    if !in_order {
        return add_from_each(declarations, place, to, rows);
    }
    pst_base::places_are_ordered();
    match number_at(declarations, place) {
        None => Ok(()),
        Some(from) => add_edge(rows, from, to),
    }
}

// Adds the edge from an action to its base.
fn add_base(index: &Index, in_order: bool, at: usize, rows: &mut [Vec<u32>]) -> Result<(), NoMemory>
    requires order { IsTrue in_order → AreInOrderTo (length index.now) index.now }
    requires long { length rows.old ≡ length index.now }
    requires within { at < length index.now }
    ensures { OnOk result (AddsEdges index.now (IsBaseBy index.now at) rows.old rows.new) }
{
    let declarations = index.as_slice();
    let action = declarations[at];
    match index.base_of(&action) {
        None => Ok(()),
        Some(base) => {
            let number = vertex_of(declarations, in_order, &base)?;
            add_edge(rows, at, number)
        }
    }
}

// The place in whose scope an instance is declared.
fn scope_of(declaration: &Declaration) -> Option<Place>
    ensures { result ≡ scope_of_instance declaration.now }
{
    match (declaration.sort, declaration.scope) {
        (Sort::Instance { .. }, Scope::Part(place)) => Some(place),
        _ => None,
    }
}

// Adds the edges from what is declared at the place of an instance's scope to its component.
fn add_component(
    index: &Index,
    in_order: bool,
    at: usize,
    rows: &mut [Vec<u32>],
) -> Result<(), NoMemory>
    requires order { IsTrue in_order → AreInOrderTo (length index.now) index.now }
    requires long { length rows.old ≡ length index.now }
    requires within { at < length index.now }
    ensures { OnOk result (AddsEdges index.now (IsComponentBy index.now at) rows.old rows.new) }
{
    let declarations = index.as_slice();
    let instance = declarations[at];
    let Some(place) = scope_of(&instance) else {
        return Ok(());
    };
    match index.type_of(&instance) {
        None => Ok(()),
        Some(component) => {
            let number = vertex_of(declarations, in_order, &component)?;
            add_from(declarations, in_order, place, number, rows)
        }
    }
}

// Adds the edges that all declarations give.
fn add_all(index: &Index, in_order: bool, rows: &mut [Vec<u32>]) -> Result<(), NoMemory>
    requires order { IsTrue in_order → AreInOrderTo (length index.now) index.now }
    requires long { length rows.old ≡ length index.now }
    requires none { (a b : ℕ) → HasEdge rows.old a b → ⊥ }
    ensures { OnOk result (AreRows index.now rows.new) }
{
    for at in 0..index.as_slice().len() {
        add_base(index, in_order, at, rows)?;
        add_component(index, in_order, at, rows)?;
    }
    Ok(())
}

/// For each declaration the numbers of those to which it leads: of its base, or of the components
/// of the instances in it.
pub fn rows_of(alloc: Global, index: &Index, in_order: bool) -> Result<Vec<Vec<u32>>, NoMemory>
    requires { IsTrue in_order → AreInOrderTo (length index.now) index.now }
    ensures { IfOk result (λ rows. AreRows index.now rows.items) }
{
    let mut rows = without_edges(alloc, index.as_slice().len())?;
    add_all(index, in_order, rows.as_mut_slice())?;
    Ok(rows)
}
