//! Scenarios.
use crate::act::Act;
use crate::tree::Node;
use pst_base::Items;

/// A scenario: a filled-in activity, its atomic actions with their values and links, and the first
/// objects of the state pools that they use.
#[derive(Debug, Drop)]
pub struct Scenario {
    /// The number of inferred actions.
    pub level: u32,
    /// The filled-in activity in preorder.
    pub nodes: Items<Node>,
    /// The atomic actions: those of the leaves in the order of their nodes, then the inferred ones.
    pub actions: Items<Act>,
    /// The first objects of the state pools that a reference of an action has, by pool.
    pub firsts: Items<First>,
}

/// The first object of a state pool.
#[derive(Debug, Drop)]
pub struct First {
    /// The pool.
    pub pool: u32,
    /// The values of the object's fields.
    pub values: Items<i64>,
}
