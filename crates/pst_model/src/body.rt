//! Bodies of atomic actions.
use crate::constraint::Constraint;
use pst_expr::Span;

/// A step of a body.
#[derive(Drop)]
pub enum BodyStep {
    /// A declaration of a local.
    Declare {
        /// The local's number.
        local: u32,
        /// The values that it may have.
        range: Span,
        /// Its first value, 0 where there is none.
        value: Option<Source>,
    },
    /// An assignment.
    Assign {
        /// The local's number.
        local: u32,
        /// Its new value.
        value: Source,
    },
    /// A call whose answer is dropped.
    Call {
        /// The function's number.
        function: u32,
        /// Its arguments.
        arguments: Vec<Constraint>,
    },
    /// A conditional part.
    If {
        /// The condition.
        condition: Constraint,
        /// The steps where it holds.
        yes: Vec<BodyStep>,
        /// The steps where it doesn't.
        no: Vec<BodyStep>,
    },
    /// As many turns of steps as its count says.
    Repeat {
        /// The count.
        count: Constraint,
        /// What is repeated.
        body: Vec<BodyStep>,
    },
}

/// Where a local's value comes from.
#[derive(Drop)]
pub enum Source {
    /// An expression.
    Value(Constraint),
    /// The answer of a call.
    Answer {
        /// The function's number.
        function: u32,
        /// Its arguments.
        arguments: Vec<Constraint>,
    },
}
