//! What the sources declare.
use crate::{Name, ObjectWord, TypeName};
use pst_base::Place;

/// The scope in which a name is declared.
#[derive(Clone, Copy, PartialEq, Eq)]
pub enum Scope {
    /// The scope of all files together.
    Files,
    /// The scope of a component, object, enum, action or function, whose name stands at that place,
    /// or a scope of a body, which begins there, or that of an index, which is declared there.
    Part(Place),
}

/// What a name is declared as.
#[derive(Clone, Copy, PartialEq, Eq)]
pub enum Sort {
    /// A component.
    Component,
    /// An action of a component.
    Action {
        /// The name of its base.
        base: Option<TypeName>,
    },
    /// An object type.
    Object {
        /// Its kind.
        word: ObjectWord,
    },
    /// An enum.
    Enumeration,
    /// A function.
    Function,
    /// A component instance.
    Instance {
        /// Its component.
        of: TypeName,
    },
    /// A pool.
    Pool {
        /// The type of its objects.
        of: TypeName,
    },
    /// An item of an enum.
    Item {
        /// The scope in which the enum is declared.
        level: Scope,
    },
    /// A field.
    Field {
        /// Whether it has a size.
        array: bool,
    },
    /// A reference to a flow object.
    Reference {
        /// The object type.
        of: TypeName,
        /// Whether the action produces the object.
        output: bool,
    },
    /// A claim of a resource.
    Claim {
        /// The resource type.
        of: TypeName,
    },
    /// An action handle.
    Handle {
        /// The action type.
        of: TypeName,
    },
    /// A named constraint.
    Constraint,
    /// A parameter of a function.
    Parameter,
    /// A local of a body.
    Local,
    /// An index of a `repeat` or a `foreach`.
    Index,
}

/// A name that is declared.
#[derive(Clone, Copy, PartialEq, Eq)]
pub struct Declaration {
    /// The name, where it is declared.
    pub name: Name,
    /// The scope in which it is declared.
    pub scope: Scope,
    /// The place of the name of the innermost component, action, object, enum or function in whose
    /// text it is declared; none at file level.
    pub inside: Option<Place>,
    /// What it is declared as.
    pub sort: Sort,
}
