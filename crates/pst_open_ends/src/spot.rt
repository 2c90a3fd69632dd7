//! References and the sources that they may have.
use pst_scen::{Flow, Link};

/// A reference of an action, with its pool, its kind and what it is linked to.
#[derive(Clone, Copy, Debug, PartialEq, Eq)]
pub struct Spot {
    /// The action.
    pub act: usize,
    /// The reference.
    pub reference: usize,
    /// The pool.
    pub pool: u32,
    /// The kind of its object, and the direction.
    pub flow: Flow,
    /// The other end.
    pub link: Link,
}

/// What a need may be linked to.
#[derive(Clone, Copy, Debug, PartialEq, Eq)]
pub enum Source {
    /// The first object of the pool.
    Initially,
    /// A reference of an action that is there.
    From {
        /// The action.
        act: usize,
        /// The reference.
        reference: usize,
    },
    /// A reference of a new action.
    New {
        /// The type of the action.
        action: usize,
        /// The component instance in which it runs.
        instance: usize,
        /// The reference.
        reference: usize,
    },
}
