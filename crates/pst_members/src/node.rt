//! Nodes of trees over the bits of keys.
ghost use Rattle.std.specs.Prelude.{◌≡◌, slice_get};

/// A node, which the bits of a key from its lowest on lead to.
#[derive(Clone, Copy)]
pub enum Node {
    /// No key leads through it.
    Empty,
    /// A single key leads to it.
    Leaf {
        /// What is left of the key.
        key: u32,
        /// Its value.
        value: u32,
    },
    /// Keys part by their next bit.
    Branch {
        /// The node where that bit is 0.
        even: u32,
        /// The node where it is 1.
        odd: u32,
    },
}

/// The node of a number.
pub fn node_in(nodes: &[Node], at: u32) -> Option<Node>
    ensures { result ≡ slice_get nodes.now at }
{
    nodes.get(at as usize).copied()
}
