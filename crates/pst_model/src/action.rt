//! Action types.
use crate::activity::Activity;
use crate::body::BodyStep;
use crate::constraint::Constraint;
use pst_base::NameId;
use pst_expr::Domain;

/// An action type, with what it inherits. Types are numbered in order of declaration.
#[derive(Drop)]
pub struct ActionType {
    /// Its name.
    pub name: NameId,
    /// The name of its component type.
    pub component: NameId,
    /// Whether it is abstract.
    pub is_abstract: bool,
    /// Its fields, its base's first. The elements of an array stand in order.
    pub fields: Vec<Field>,
    /// Its references to flow objects, its base's first.
    pub references: Vec<Reference>,
    /// Its claims of resources, its base's first.
    pub claims: Vec<Claim>,
    /// Its constraints, its base's first.
    pub constraints: Vec<Constraint>,
    /// What it does.
    pub content: Content,
}

/// What an action does.
#[derive(Drop)]
pub enum Content {
    /// An atomic action runs this body.
    Atomic(Vec<BodyStep>),
    /// A compound action is filled in by this activity.
    Compound(Activity),
}

/// A field of an action or object type, or an element of a field that is an array.
#[derive(Debug, Drop)]
pub struct Field {
    /// Its name, for an element the array's.
    pub name: NameId,
    /// The values that it may have.
    pub domain: Domain,
    /// The index of an element, and nothing for a field that is no array.
    pub element: Option<u32>,
}

/// A reference to a flow object.
#[derive(Clone, Copy, Debug, PartialEq, Eq)]
pub struct Reference {
    /// Its name.
    pub name: NameId,
    /// The number of its object type.
    pub object: u32,
    /// Whether the action produces the object; otherwise it consumes it.
    pub output: bool,
}

/// A claim of a resource.
#[derive(Clone, Copy, Debug, PartialEq, Eq)]
pub struct Claim {
    /// Its name.
    pub name: NameId,
    /// The number of its resource type.
    pub object: u32,
    /// Whether the action locks the resource; otherwise it shares it.
    pub lock: bool,
}
