//! A filled-in activity as it grows.
ghost use Rattle.std.specs.Prelude.{◌≡◌, ◌<◌, length, IfOk, OnOk, OnErr, MatchBool, false, [], Some, None};
ghost use Rattle.pst_legal.specs.Growing.{Inner, Leaf as Leaf_look};
ghost use Rattle.pst_legal.specs.Reading.{with_value};
ghost use Rattle.pst_shape_parts.specs.Trees.{tree_of, grown_by, is_small, IsGrown, Extends, cut_to, put, taken_back, fields_in, without_value};

use pst_base::{Items, NoMemory};
use pst_scen::{Act, Fill, Node};
use std::alloc::Global;
use std::mem;

const MOST_NODES: usize = 65536;

const MOST_ACTS: usize = 16384;

/// The nodes in preorder, and the leaves in the order of their nodes.
#[derive(Drop)]
pub struct Grown {
    pub nodes: Vec<Node>,
    pub leaves: Vec<Act>,
}

// Adds a value to those of a compound action.
fn push_value(alloc: Global, node: &mut Node, value: i64) -> Result<(), NoMemory>
    ensures ok { OnOk result (node.new ≡ record node.old { fill = with_value value node.old.fill }) }
    ensures err { OnErr result (node.new ≡ node.old) }
{
    if let Fill::Compound { fields, .. } = &mut node.fill {
        let mut values = mem::replace(fields, Items::empty(alloc)).into_vec();
        let pushed = values.push(value);
        *fields = Items::from_vec(values);
        pushed?;
    }
    Ok(())
}

// Takes the last value of a compound action away.
fn pop_value(alloc: Global, node: &mut Node)
    ensures { node.new ≡ record node.old { fill = without_value node.old.fill } }
{
    if let Fill::Compound { fields, .. } = &mut node.fill {
        let mut values = mem::replace(fields, Items::empty(alloc)).into_vec();
        values.pop();
        *fields = Items::from_vec(values);
    }
}

impl Grown {
    pub fn new(alloc: Global) -> Grown
        ensures { tree_of result ≡ record { nodes = []; leaves = [] } }
    {
        Grown {
            nodes: Vec::new(alloc),
            leaves: Vec::new(alloc),
        }
    }

    /// Adds a node that is no leaf, unless there would be too many.
    pub fn add(&mut self, parent: Option<u32>, fill: Fill) -> Result<bool, NoMemory>
        requires { IsGrown (tree_of self.old) }
        ensures added { IfOk result (λ added. MatchBool added (tree_of self.new ≡ grown_by (tree_of self.old) parent (Inner fill)) (is_small (grown_by (tree_of self.old) parent (Inner fill)) ≡ false)) }
        ensures grows { Extends (tree_of self.old) (tree_of self.new) }
        ensures grown { IsGrown (tree_of self.new) }
    {
        if self.nodes.len() == MOST_NODES {
            return Ok(false);
        }
        self.nodes.push(Node { parent, fill })?;
        Ok(true)
    }

    /// Adds a leaf, unless there would be too many.
    pub fn add_leaf(
        &mut self,
        alloc: Global,
        parent: Option<u32>,
        action: u32,
        instance: u32,
    ) -> Result<bool, NoMemory>
        requires { IsGrown (tree_of self.old) }
        ensures added { IfOk result (λ added. MatchBool added (tree_of self.new ≡ grown_by (tree_of self.old) parent (Leaf_look action instance)) (is_small (grown_by (tree_of self.old) parent (Leaf_look action instance)) ≡ false)) }
        ensures grows { Extends (tree_of self.old) (tree_of self.new) }
        ensures grown { IsGrown (tree_of self.new) }
    {
        let node = self.nodes.len();
        let act = self.leaves.len();
        if node == MOST_NODES || act == MOST_ACTS {
            return Ok(false);
        }
        self.leaves.push(Act {
            action,
            instance,
            node: Some(node as u32),
            fields: Items::empty(alloc),
            references: Items::empty(alloc),
            claims: Items::empty(alloc),
        })?;
        let fill = Fill::Leaf { act: act as u32 };
        self.nodes.push(Node { parent, fill })?;
        Ok(true)
    }

    /// Adds a value to those of the action of a node.
    #[tactic(auto, using(crate::proofs::Placed::put_beyond))]
    pub fn put(&mut self, alloc: Global, node: usize, value: i64) -> Result<(), NoMemory>
        ensures ok { OnOk result (tree_of self.new ≡ put (tree_of self.old) node value) }
        ensures err { OnErr result (tree_of self.new ≡ tree_of self.old) }
    {
        if node >= self.nodes.len() {
            return Ok(());
        }
        push_value(alloc, &mut self.nodes[node], value)
    }

    /// Takes the last value of the action of a node away.
    #[tactic(auto, using(crate::proofs::Placed::back_beyond))]
    pub fn take_back(&mut self, alloc: Global, node: usize)
        ensures { tree_of self.new ≡ taken_back (tree_of self.old) node }
    {
        if node >= self.nodes.len() {
            return;
        }
        pop_value(alloc, &mut self.nodes[node]);
    }

    /// Takes back all nodes and leaves but the first ones.
    pub fn cut(&mut self, nodes: usize, leaves: usize)
        ensures { tree_of self.new ≡ cut_to nodes leaves (tree_of self.old) }
    {
        self.nodes.truncate(nodes);
        self.leaves.truncate(leaves);
    }

    /// The values of the action of a node so far.
    pub fn fields(&self, alloc: Global, node: usize) -> Result<Vec<i64>, NoMemory>
        ensures { IfOk result (λ values. values.items ≡ fields_in (tree_of self.now) node) }
    {
        match self.nodes.get(node) {
            None => Ok(Vec::new(alloc)),
            Some(node) => match &node.fill {
                Fill::Compound { fields, .. } => Ok(Vec::from_slice(alloc, fields.as_slice())?),
                _ => Ok(Vec::new(alloc)),
            },
        }
    }
}
