//! Object types.
use crate::action::Field;
use crate::constraint::Constraint;
use pst_base::NameId;

/// A type of flow objects or of resources. Types are numbered in order of declaration.
#[derive(Drop)]
pub struct ObjectType {
    /// Its name.
    pub name: NameId,
    /// Its kind.
    pub kind: ObjectKind,
    /// Its fields. The elements of an array stand in order.
    pub fields: Vec<Field>,
    /// Its constraints.
    pub constraints: Vec<Constraint>,
}

/// The kind of an object type.
#[derive(Clone, Copy, Debug, PartialEq, Eq)]
pub enum ObjectKind {
    /// A buffer, which its producer completes before a consumer starts.
    Buffer,
    /// A stream, whose producer and consumer run together.
    Stream,
    /// A state, of which a pool holds one at a time.
    State,
    /// A resource, which actions claim.
    Resource,
}
