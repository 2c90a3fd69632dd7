//! Expressions of a model, and what their variables stand for.
use pst_expr::Expr;

/// An expression with the meaning of its variables: variable v stands for slot v.
///
/// It is a constraint, or another expression of an activity or a body, as a condition or a count.
#[derive(Drop)]
pub struct Constraint {
    /// The expression.
    pub expr: Expr,
    /// What each variable stands for.
    pub slots: Vec<Slot>,
}

/// What a variable of an expression stands for.
#[derive(Debug, Drop)]
pub enum Slot {
    /// A field of the action or object whose constraint it is.
    Own {
        /// The field's number.
        field: u32,
    },
    /// A field of the object of a reference.
    Object {
        /// The reference's number.
        reference: u32,
        /// The number of the field of the object's type.
        field: u32,
    },
    /// Whether the object of a state reference is its pool's first one.
    First {
        /// The reference's number.
        reference: u32,
    },
    /// The number of the claimed resource instance in its pool.
    ClaimId {
        /// The claim's number.
        claim: u32,
    },
    /// A field of the claimed resource.
    ClaimField {
        /// The claim's number.
        claim: u32,
        /// The number of the field of the resource's type.
        field: u32,
    },
    /// In a state object, the field of the object that it replaces.
    Prev {
        /// The field's number.
        field: u32,
    },
    /// In a state object, whether it is its pool's first one.
    IsFirst,
    /// In a resource object, its number in its pool.
    Id,
    /// The turn of a `repeat`, counted from 0.
    Index {
        /// The number of `repeat` statements round that one in the activity or body.
        level: u32,
    },
    /// A local of a body.
    Local {
        /// The local's number.
        local: u32,
    },
    /// A slot of the action that a handle of the activity traverses.
    Through {
        /// The handle's number.
        handle: u32,
        /// The slot of the traversed action.
        slot: Box<Slot>,
    },
    /// In an inline constraint, a slot of the action whose activity it stands in.
    Outer {
        /// The slot of that action.
        slot: Box<Slot>,
    },
}
