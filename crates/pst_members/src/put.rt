//! Putting a value at a key: a path of further nodes.

use crate::Versions;
use crate::node::{Node, node_in};
use pst_base::NoMemory;

impl Versions {
    ghost use Rattle.std.specs.Prelude.{◌≡◌, ◌≢◌, ◌<◌, ◌%◌, ◌/◌, ℕ, nat_eq, None, Some, IfOk, if◌then◌else◌};
    ghost use Rattle.pst_members.specs.Nodes.{at_node};
    ghost use Rattle.pst_members.specs.Found.{Keeps, IsWith, IsStored, IsParted, IsBranch, StandsBelow, count, found};

    // The node of a version; an empty one where it isn't there.
    pub(crate) fn node_at(&self, at: u32) -> Node
        ensures node { (key : ℕ) → found self.now at key ≡ at_node (found self.now) key result }
        ensures below { StandsBelow at (count self.now) result }
    {
        match node_in(self.nodes.as_slice(), at) {
            None => Node::Empty,
            Some(node) => node,
        }
    }

    // Adds a node.
    fn push(&mut self, node: Node) -> Result<u32, NoMemory>
        requires { StandsBelow (count self.old) (count self.old) node }
        ensures kept { Keeps self.old self.new }
        ensures added { IfOk result (λ added. IsStored self.old node self.new added) }
    {
        let Ok(at) = u32::try_from(self.nodes.len()) else {
            return Err(NoMemory);
        };
        self.nodes.push(node)?;
        Ok(at)
    }

    // A branch with a node on the side of a key and another beside it.
    fn branch(&mut self, key: u32, below: u32, beside: u32) -> Result<u32, NoMemory>
        requires below { below < count self.old }
        requires beside { beside < count self.old }
        ensures kept { Keeps self.old self.new }
        ensures added { IfOk result (λ added. IsBranch self.old key below beside self.new added) }
    {
        let node = if key % 2 == 0 {
            Node::Branch {
                even: below,
                odd: beside,
            }
        } else {
            Node::Branch {
                even: beside,
                odd: below,
            }
        };
        self.push(node)
    }

    // A node that two keys lead to.
    fn part(&mut self, key: u32, value: u32, other: u32, kept: u32) -> Result<u32, NoMemory>
        requires { key ≢ other }
        ensures kept { Keeps self.old self.new }
        ensures added { IfOk result (λ added. IsParted key value other kept self.new added) }
    {
        if key % 2 == other % 2 {
            let below = self.part(key / 2, value, other / 2, kept)?;
            return self.branch(key, below, Versions::EMPTY);
        }
        let below = self.push(Node::Leaf {
            key: key / 2,
            value,
        })?;
        let beside = self.push(Node::Leaf {
            key: other / 2,
            value: kept,
        })?;
        self.branch(key, below, beside)
    }

    // A node like one, but with a value at a key.
    pub(crate) fn put(&mut self, at: u32, key: u32, value: u32) -> Result<u32, NoMemory>
        ensures kept { Keeps self.old self.new }
        ensures added { IfOk result (λ added. IsWith self.old at key value self.new added) }
    {
        match self.node_at(at) {
            Node::Empty => self.push(Node::Leaf { key, value }),
            Node::Leaf { key: other, .. } if other == key => self.push(Node::Leaf { key, value }),
            Node::Leaf {
                key: other,
                value: kept,
            } => self.part(key, value, other, kept),
            Node::Branch { even, odd } => {
                let (on, beside) = if key % 2 == 0 {
                    (even, odd)
                } else {
                    (odd, even)
                };
                let below = self.put(on, key / 2, value)?;
                self.branch(key, below, beside)
            }
        }
    }
}
