//! Maps of which every earlier state can still be read.
ghost use Rattle.pst_members.specs.Nodes.{AreNodes};

use crate::node::Node;
use pst_base::NoMemory;
use std::alloc::Global;

/// Maps from numbers to numbers, the versions, each known by a number of its own. A version never
/// changes: a further one is made of it.
///
/// A look-up and a further version take at most one step for each bit of the key, whatever the
/// number of keys and versions.
#[derive(Drop)]
pub struct Versions {
    pub(crate) nodes: Vec<Node>,
    ghost stored: { AreNodes nodes.items },
}

impl Versions {
    ghost use Rattle.std.specs.Prelude.{◌≡◌, ◌<◌, ℕ, None, IfOk};
    ghost use Rattle.pst_members.specs.Found.{Keeps, IsWith, count, found};

    // The number of the version that finds nothing.
    pub(crate) const EMPTY: u32 = 0;

    /// The version that finds nothing, alone.
    pub fn new(alloc: Global) -> Result<Versions, NoMemory>
        ensures { IfOk result (λ versions. count versions ≡ 1) }
    {
        let mut nodes = Vec::new(alloc);
        nodes.push(Node::Empty)?;
        Ok(Versions { nodes })
    }

    /// The version that finds nothing.
    pub fn empty(&self) -> u32
        ensures there { result < count self.now }
        ensures nothing { (key : ℕ) → found self.now result key ≡ None }
    {
        Versions::EMPTY
    }

    /// What a version finds by a key. A version that isn't there finds nothing.
    pub fn get(&self, version: u32, key: u32) -> Option<u32>
        ensures { result ≡ found self.now version key }
    {
        let mut at = version;
        let mut rest = key;
        loop {
            match self.node_at(at) {
                Node::Empty => return None,
                Node::Leaf { key, value } => return if key == rest { Some(value) } else { None },
                Node::Branch { even, odd } => at = if rest % 2 == 0 { even } else { odd },
            }
            rest /= 2;
        }
    }

    /// A further version, which finds what a version finds, but a value by a key.
    pub fn with(&mut self, version: u32, key: u32, value: u32) -> Result<u32, NoMemory>
        ensures kept { Keeps self.old self.new }
        ensures added { IfOk result (λ added. IsWith self.old version key value self.new added) }
    {
        self.put(version, key, value)
    }
}
