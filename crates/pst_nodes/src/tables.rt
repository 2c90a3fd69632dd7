//! Tables of the nodes of a filled-in activity, by which those behind a node are found at once.
ghost use Rattle.std.specs.Prelude.{◌≡◌, ◌≤◌, ◌<◌, ◌+◌, ◌^◌, ◌↔◌, ℕ, length, get_or, IsTrue, IfOk};
ghost use Rattle.pst_nodes.specs.Tables.{is_leaf, leaf_count, AreNodesNumbered, AreEnds, AreEndsFrom, AreCounts, AreLeaves};
ghost use Rattle.pst_nodes.specs.Tabled.{AreTables};
ghost use Rattle.pst_scen.specs.Laws.{IsPreorder};

use pst_base::NoMemory;
use pst_scen::{Fill, Node};
use std::alloc::Global;

/// Whether the node is a leaf.
fn is_leaf(fill: &Fill) -> bool
    ensures { result ≡ is_leaf fill.now }
{
    match fill {
        Fill::Leaf { .. } => true,
        _ => false,
    }
}

/// The numbers from 1 on, which are the ends of nodes that have none under them.
fn own_ends(alloc: Global, count: u32) -> Result<Vec<u32>, NoMemory>
    ensures { IfOk result (λ ends. (length ends.items ≡ count) × ((n : ℕ) → n < count → get_or ends.items n 0 ≡ n + 1)) }
{
    let mut ends = Vec::new(alloc);
    for n in 0..count {
        ends.push(n + 1)?;
    }
    Ok(ends)
}

/// Gives the node's parent an end no earlier than the node's.
fn widen(ends: &mut Vec<u32>, nodes: &[Node], n: usize)
    requires preorder { IsPreorder nodes.now }
    requires n_in { n < length nodes.now }
    requires from { AreEndsFrom nodes.now ends.old.items (n + 1) }
    ensures { AreEndsFrom nodes.now ends.new.items n }
{
    let Some(parent) = nodes[n].parent else {
        return;
    };
    let parent = parent as usize;
    if ends[parent] < ends[n] {
        let end = ends[n];
        ends[parent] = end;
    }
}

/// For each node the number of the first one behind those under it.
fn ends_of(alloc: Global, nodes: &[Node]) -> Result<Vec<u32>, NoMemory>
    requires small { length nodes.now < 2 ^ 31 }
    requires numbered { AreNodesNumbered nodes.now }
    ensures { IfOk result (λ ends. AreEnds nodes.now ends.items) }
{
    let mut ends = own_ends(alloc, nodes.len() as u32)?;
    let mut n = nodes.len();
    'nodes: while n > 0 {
        n -= 1;
        widen(&mut ends, nodes, n);
    }
    Ok(ends)
}

/// For each node, and for their end, how many leaves stand before.
fn counts_of(alloc: Global, nodes: &[Node]) -> Result<Vec<u32>, NoMemory>
    requires { length nodes.now < 2 ^ 31 }
    ensures { IfOk result (λ counts. AreCounts nodes.now counts.items) }
{
    let mut counts = Vec::new(alloc);
    let mut count = 0;
    counts.push(count)?;
    for n in 0..nodes.len() {
        if is_leaf(&nodes[n].fill) {
            count += 1;
        }
        counts.push(count)?;
    }
    Ok(counts)
}

/// Appends the node, where it is a leaf.
fn push_leaf(leaves: &mut Vec<u32>, nodes: &[Node], n: usize) -> Result<(), NoMemory>
    requires small { length nodes.now < 2 ^ 31 }
    requires numbered { AreNodesNumbered nodes.now }
    requires n_in { n < length nodes.now }
    requires before { AreLeaves nodes.now leaves.old.items n }
    ensures { IfOk result (λ u. AreLeaves nodes.now leaves.new.items (n + 1)) }
{
    if is_leaf(&nodes[n].fill) {
        leaves.push(n as u32)?;
    }
    Ok(())
}

/// For each action of a leaf its node.
fn leaves_of(alloc: Global, nodes: &[Node]) -> Result<Vec<u32>, NoMemory>
    requires small { length nodes.now < 2 ^ 31 }
    requires numbered { AreNodesNumbered nodes.now }
    ensures { IfOk result (λ leaves. AreLeaves nodes.now leaves.items (length nodes.now)) }
{
    let mut leaves = Vec::new(alloc);
    for n in 0..nodes.len() {
        push_leaf(&mut leaves, nodes, n)?;
    }
    Ok(leaves)
}

/// Where the nodes end, how many leaves stand before them, and which nodes the actions' leaves are.
#[derive(Drop)]
pub struct Tables {
    /// For each node the number of the first one behind those under it.
    pub ends: Vec<u32>,
    /// For each node, and for their end, how many leaves stand before.
    pub counts: Vec<u32>,
    /// For each action of a leaf its node.
    pub leaves: Vec<u32>,
}

impl Tables {
    /// The tables of the nodes.
    pub fn new(alloc: Global, nodes: &[Node]) -> Result<Tables, NoMemory>
        requires small { length nodes.now < 2 ^ 31 }
        requires numbered { AreNodesNumbered nodes.now }
        ensures { IfOk result (AreTables nodes.now) }
    {
        let ends = ends_of(alloc, nodes)?;
        let counts = counts_of(alloc, nodes)?;
        let leaves = leaves_of(alloc, nodes)?;
        Ok(Tables {
            ends,
            counts,
            leaves,
        })
    }

    /// How many leaves stand before the node.
    pub(crate) fn leaves_until(&self, nodes: &[Node], n: usize) -> u32
        requires tables { AreTables nodes.now self.now }
        requires n_in { n < length nodes.now }
        ensures { result ≡ leaf_count nodes.now n }
    {
        self.counts[n]
    }

    /// How many leaves stand before the node's end.
    pub fn leaves_until_end(&self, nodes: &[Node], n: usize) -> u32
        requires tables { AreTables nodes.now self.now }
        requires n_in { n < length nodes.now }
        ensures { result ≡ leaf_count nodes.now (get_or self.now.ends.items n 0) }
    {
        self.counts[self.ends[n] as usize]
    }
}
