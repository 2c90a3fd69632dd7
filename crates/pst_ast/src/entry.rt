//! The types of the sources, and what each use of a name means, as numbers.
use pst_base::{Items, NameId, Place};

/// The sort of a type.
#[derive(Clone, Copy, PartialEq, Eq)]
pub enum TypeSort {
    /// A component.
    Component,
    /// An action.
    Action,
    /// An object type.
    Object,
    /// An enum.
    Enumeration,
    /// A function.
    Function,
}

/// A type of the sources, or a function.
#[derive(Clone, Copy, PartialEq, Eq)]
pub struct TypeEntry {
    /// Its name.
    pub name: NameId,
    /// The name of the component in which it stands; none at file level.
    pub component: Option<NameId>,
    /// Its sort.
    pub sort: TypeSort,
    /// The place of its name.
    pub place: Place,
}

/// What a use of a name means.
///
/// For a type or function, `target` is its number and `member` is 0. For any other name `target` is
/// the number of the innermost type or function in whose text it is declared, and `member` counts
/// from 1 the names that are declared in that text, nested types and what stands in them apart.
/// `initial`, `prev` and `instance_id` have the number of their object type and the members 2^32-1,
/// 2^32-2 and 2^32-3.
#[derive(Clone, Copy, PartialEq, Eq)]
pub struct NameMeaning {
    /// The place of the use.
    pub at: Place,
    /// The number of a type or function.
    pub target: u32,
    /// 0, or the number of a name that is declared there.
    pub member: u32,
}

/// The types and functions of the sources in order of declaration, and a meaning for each use of a
/// name, in order of place.
#[derive(Drop)]
pub struct Scopes {
    /// The types and functions.
    pub types: Items<TypeEntry>,
    /// The meanings.
    pub meanings: Items<NameMeaning>,
}
