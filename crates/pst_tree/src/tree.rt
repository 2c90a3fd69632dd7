//! The component instances of the sources.
use pst_ast::Instance;
use pst_base::Items;

/// The component instances of the sources, in preorder.
#[derive(Drop)]
pub struct Tree {
    /// The instances. Each is named by its place in this list, from 0.
    pub instances: Items<Instance>,
}

/// Why there is no tree of instances.
#[derive(Clone, Copy, Debug, PartialEq, Eq)]
pub enum TreeEnd {
    /// There are more instances than the limit of 256.
    Many {
        /// The limit plus 1.
        count: u32,
    },
    /// There was no memory.
    NoMemory,
}
