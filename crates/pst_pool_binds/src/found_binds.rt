//! The binds of pools, as they are found in the sources.
use pst_ast::Name;
use pst_base::Place;

/// A target of a bind in a component: instances that lead down from an instance of that component,
/// an action type, and its reference or claim.
#[derive(Drop)]
pub struct FoundBind {
    /// The place of the component's name.
    pub component: Place,
    /// The pool.
    pub pool: Name,
    /// The instances that lead down.
    pub instances: Vec<Name>,
    /// The action type.
    pub action: Name,
    /// The reference or claim.
    pub need: Name,
}

/// A bind `*` in a component.
#[derive(Clone, Copy)]
pub struct FoundDefault {
    /// The place of the component's name.
    pub component: Place,
    /// The pool.
    pub pool: Name,
}
