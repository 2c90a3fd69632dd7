//! The uses of resource instances and state pools by a scenario's actions.

/// A use of a resource instance or of a state pool by an action. In their order those of one
/// instance or one state pool stand together.
#[derive(Clone, Copy, Debug, PartialEq, Eq, PartialOrd, Ord)]
pub(crate) struct Use {
    /// The pool.
    pub(crate) pool: u32,
    /// The instance of a resource pool; 0 for a state pool.
    pub(crate) instance: u32,
    /// Whether it is a use of a state pool.
    pub(crate) state: bool,
    /// Whether it excludes every other use: a lock, or a write of the state.
    pub(crate) alone: bool,
    /// The action.
    pub(crate) act: u32,
}
