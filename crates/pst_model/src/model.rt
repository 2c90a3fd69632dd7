//! Models.
use crate::action::ActionType;
use crate::object::ObjectType;
use pst_base::NameId;
use pst_expr::Span;

/// A model. Everything in it is named by its place in its list, from 0.
#[derive(Drop)]
pub struct Model {
    /// The action types in order of declaration.
    pub actions: Vec<ActionType>,
    /// The object types in order of declaration.
    pub objects: Vec<ObjectType>,
    /// The component instances in preorder.
    pub instances: Vec<Part>,
    /// The pools by instance, then in order of declaration.
    pub pools: Vec<Pool>,
    /// The functions in order of declaration.
    pub functions: Vec<Function>,
    /// The pool of each reference and claim, by action, instance and reference.
    pub served: Vec<Serve>,
}

/// A component instance.
#[derive(Clone, Copy, Debug, PartialEq, Eq)]
pub struct Part {
    /// Its name.
    pub name: NameId,
    /// The name of its component type.
    pub component: NameId,
    /// The number of the instance that it stands in, and nothing for the root.
    pub parent: Option<u32>,
    /// The number of the last instance in its subtree, itself included.
    pub last: u32,
}

/// A pool.
#[derive(Clone, Copy, Debug, PartialEq, Eq)]
pub struct Pool {
    /// Its name.
    pub name: NameId,
    /// The number of the component instance that it stands in.
    pub instance: u32,
    /// The number of the type of its objects.
    pub object: u32,
    /// The number of its resources, 1 for a pool without a size.
    pub size: u32,
}

/// An imported function.
#[derive(Debug, Drop)]
pub struct Function {
    /// Its name.
    pub name: NameId,
    /// The range of each parameter.
    pub parameters: Vec<Span>,
    /// The range of its answer, and nothing for a `void` function.
    pub answer: Option<Span>,
}

/// The pool that serves a reference or claim of an action type in a component instance.
#[derive(Clone, Copy, Debug, PartialEq, Eq)]
pub struct Serve {
    /// The number of the action type.
    pub action: u32,
    /// The number of the component instance.
    pub instance: u32,
    /// The reference. The action's references are numbered first, then its claims.
    pub reference: u32,
    /// The number of the pool.
    pub pool: u32,
}
