//! The atomic actions of a scenario.
use pst_base::Items;

/// An atomic action of a scenario. Actions are named by their places in the list, from 0.
#[derive(Debug, Drop)]
pub struct Act {
    /// Its action type.
    pub action: u32,
    /// The component instance in which it runs.
    pub instance: u32,
    /// Its leaf in the filled-in activity; none for an inferred action.
    pub node: Option<u32>,
    /// The values of its fields.
    pub fields: Items<i64>,
    /// Its references to flow objects.
    pub references: Items<Filled>,
    /// Its claims of resources.
    pub claims: Items<Claimed>,
}

/// A reference to a flow object.
#[derive(Debug, Drop)]
pub struct Filled {
    /// The pool that serves the reference.
    pub pool: u32,
    /// The kind of the pool's objects, and the direction.
    pub flow: Flow,
    /// For an output, the values of its object's fields.
    pub values: Items<i64>,
    /// The other end. An input's link is its supplier, a state output's the previous writer, a
    /// stream output's its consumer, and a buffer output's is `Nothing`.
    pub link: Link,
}

/// The kind of a flow object, and whether the action consumes or produces it.
#[derive(Clone, Copy, Debug, PartialEq, Eq)]
pub enum Flow {
    BufferIn,
    BufferOut,
    StreamIn,
    StreamOut,
    StateIn,
    StateOut,
}

/// What a reference is linked to.
#[derive(Clone, Copy, Debug, PartialEq, Eq)]
pub enum Link {
    /// Nothing.
    Nothing,
    /// The first object of the state pool.
    Initial,
    /// A reference of another action.
    Act { act: u32, reference: u32 },
}

/// A claim of a resource instance.
#[derive(Debug, Drop)]
pub struct Claimed {
    /// The pool that serves the claim.
    pub pool: u32,
    /// Whether it locks the instance; otherwise it shares it.
    pub lock: bool,
    /// The number of the claimed instance in its pool.
    pub instance: u32,
    /// The values of the resource object's fields.
    pub values: Items<i64>,
}
