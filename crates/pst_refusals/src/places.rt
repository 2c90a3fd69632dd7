//! Where nodes stand in their parents.
ghost use Rattle.std.specs.Prelude.{◌≡◌, ◌≢◌, ◌<◌, ◌≤◌, ◌+◌, ◌^◌, cond, ℕ, IfOk, length, get_or, replicate, slice_get};
ghost use Rattle.pst_slots.specs.Stated.{parent_of};
ghost use Rattle.std.specs.Option.{option_map};
ghost use Rattle.pst_scen.specs.Tree.{is_parent};
ghost use Rattle.pst_refusals.specs.Places.{ArePlaces, between, place_by};
ghost use Rattle.pst_refusals.specs.Counted.{AreCounted, IsPlace};

use pst_base::NoMemory;
use pst_scen::Node;
use std::alloc::Global;

/// The node that contains the node of that number.
pub(crate) fn parent_of(nodes: &[Node], n: usize) -> Option<usize>
    ensures { result ≡ parent_of nodes.now n }
{
    match nodes.get(n)?.parent {
        None => None,
        Some(parent) => Some(parent as usize),
    }
}

// Counts one more in a parent.
fn count_one(counts: &mut Vec<usize>, parent: usize)
    requires inside { parent < length counts.old.items }
    requires room { get_or counts.old.items parent 0 + 1 < 2 ^ 64 }
    ensures many { length counts.new.items ≡ length counts.old.items }
    ensures here { get_or counts.new.items parent 0 ≡ get_or counts.old.items parent 0 + 1 }
    ensures others { (other : ℕ) → other ≢ parent → get_or counts.new.items other 0 ≡ get_or counts.old.items other 0 }
{
    counts[parent] += 1;
}

// Counts the node of that number in its parent, and gives its place there; 0 where no node is its
// parent.
fn count_node(nodes: &[Node], counts: &mut Vec<usize>, n: usize) -> usize
    requires inside { n < length nodes.now }
    requires room { n + 1 < 2 ^ 64 }
    requires counted { AreCounted nodes.now n counts.old.items }
    ensures counted { AreCounted nodes.now (n + 1) counts.new.items }
    ensures place { IsPlace nodes.now n result }
{
    let Some(parent) = parent_of(nodes, n) else {
        return 0;
    };
    if parent >= counts.len() {
        return 0;
    }
    let place = counts[parent];
    count_one(counts, parent);
    place
}

// Sets the place of a node.
fn put(places: &mut Vec<usize>, n: usize, place: usize)
    requires { n < length places.old.items }
    ensures many { length places.new.items ≡ length places.old.items }
    ensures here { get_or places.new.items n 0 ≡ place }
    ensures others { (other : ℕ) → other ≢ n → get_or places.new.items other 0 ≡ get_or places.old.items other 0 }
{
    places[n] = place;
}

// Sets the places of the nodes, whose number is `count`.
fn place_nodes(nodes: &[Node], count: usize, counts: &mut Vec<usize>, places: &mut Vec<usize>)
    requires all { count ≡ length nodes.now }
    requires none { counts.old.items ≡ replicate count 0 }
    requires many { length places.old.items ≡ count }
    ensures { ArePlaces nodes.now places.new.items }
{
    for n in 0..count {
        let place = count_node(nodes, counts, n);
        put(places, n, place);
    }
}

/// The place of each node among those that stand directly in its parent, found in one pass over the
/// nodes; 0 where no node is its parent.
pub fn places_of(alloc: Global, nodes: &[Node]) -> Result<Vec<usize>, NoMemory>
    ensures { IfOk result (λ places. ArePlaces nodes.now places.items) }
{
    let count = nodes.len();
    let mut counts = vec![in alloc; 0usize; count]?;
    let mut places = vec![in alloc; 0usize; count]?;
    place_nodes(nodes, count, &mut counts, &mut places);
    Ok(places)
}

// The entry of a table of places for the node of that number.
fn place_at(places: &[usize], n: usize) -> Option<usize>
    ensures { result ≡ slice_get places.now n }
{
    match places.get(n) {
        None => None,
        Some(place) => Some(*place),
    }
}

// Whether a node stands directly in a parent.
fn stands_in(node: &Node, parent: usize) -> bool
    ensures { result ≡ is_parent parent node.now.parent }
{
    match node.parent {
        None => false,
        Some(over) => parent == over as usize,
    }
}

// So many, and one more where that is so.
fn with_one(count: usize, more: bool) -> usize
    requires { count + 1 < 2 ^ 64 }
    ensures { result ≡ count + cond more 1 0 }
{
    if more { count + 1 } else { count }
}

// How many nodes behind a parent and before the node of that number stand directly in the parent.
fn count_between(nodes: &[Node], parent: usize, n: usize) -> usize
    requires { n ≤ length nodes.now }
    ensures { result ≡ between nodes.now parent n }
{
    if parent >= n {
        return 0;
    }
    let mut count = 0;
    for k in parent + 1..n {
        count = with_one(count, stands_in(&nodes[k], parent));
    }
    count
}

/// The place of a node in its parent, by a table of places, or by the nodes between the two.
pub(crate) fn place_of(
    nodes: &[Node],
    places: Option<&[usize]>,
    n: usize,
    parent: usize,
) -> Option<usize>
    requires { n ≤ length nodes.now }
    ensures { result ≡ place_by nodes.now (option_map (λ t. t.now) places.entry) n parent }
{
    match places {
        Some(places) => place_at(places, n),
        None => Some(count_between(nodes, parent, n)),
    }
}
