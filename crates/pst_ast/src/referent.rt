//! Where a name is used, and what it stands for.
use crate::{Declaration, Name, TypeName};
use pst_base::{Items, Place};

/// The action or object in whose text a name is used.
#[derive(Clone, Copy, PartialEq, Eq)]
pub enum Owner {
    /// Neither.
    Nobody,
    /// An action.
    OfAction(Declaration),
    /// An object.
    OfObject(Declaration),
}

/// The traversal that an inline constraint belongs to.
#[derive(Clone, Copy, PartialEq, Eq)]
pub enum Traversal {
    /// Of an action type.
    ByType(TypeName),
    /// Of a handle. An index of a `foreach` in the constraint hides no handle from its traversal.
    ByHandle {
        /// The index of the handle's name in whose scope the traversal stands.
        hidden_by: Option<Name>,
        /// The handle.
        name: Name,
    },
}

/// What a name stands for.
#[derive(Clone, Copy, PartialEq, Eq)]
pub enum Referent {
    /// What is declared.
    Declared(Declaration),
    /// Whether an object of a state type is the first of its pool.
    Initial(Declaration),
    /// The object that an object of a state type replaces.
    Previous(Declaration),
    /// The number of a resource in its pool, of that type; of that claim, where the name of the
    /// claim's type stands for no type of objects.
    Number(Declaration),
}

/// A name of a path, and whether an index stands behind it.
#[derive(Clone, Copy, PartialEq, Eq)]
pub struct PathPart {
    /// The name.
    pub name: Name,
    /// Whether an index stands behind it.
    pub index: bool,
}

/// What a path stands for.
#[derive(Drop)]
pub struct PathReferent {
    /// What each of its names but the last stands for.
    pub before: Items<Referent>,
    /// What the last one stands for.
    pub last: Referent,
}

/// An action type, and its reference or claim, that a pool is bound to.
#[derive(Clone, Copy, PartialEq, Eq)]
pub struct Target {
    /// The action type.
    pub action: Declaration,
    /// The reference or claim.
    pub need: Declaration,
}

/// A name that is used, and what it stands for.
#[derive(Clone, Copy, PartialEq, Eq)]
pub struct Meant {
    /// The name, where it is used.
    pub name: Name,
    /// What it stands for.
    pub referent: Referent,
}

/// What was asked for, or the place of a name that is wrong and the rule that it breaks.
#[derive(Drop)]
pub enum Checked<X> {
    /// What was asked for.
    Is(X),
    /// A name is wrong.
    Breaks {
        /// Its place.
        place: Place,
        /// The rule that it breaks.
        rule: u8,
    },
}

/// A place at which a rule is broken.
#[derive(Clone, Copy, PartialEq, Eq)]
pub struct Finding {
    /// The place.
    pub place: Place,
    /// The number of the rule.
    pub rule: u8,
}
