//! Activities.
use crate::constraint::Constraint;
use pst_expr::Span;

/// The activity of a compound action. Its steps run one after another.
#[derive(Drop)]
pub struct Activity {
    /// The action type of each handle, in order of declaration.
    pub handles: Vec<u32>,
    /// The steps.
    pub steps: Vec<Step>,
    /// The binds in the order of their text.
    pub binds: Vec<Tie>,
}

/// A bind of an activity: an output of one handle's action supplies an input of another's.
#[derive(Clone, Copy, Debug, PartialEq, Eq)]
pub struct Tie {
    /// The handle of the producer.
    pub from_handle: u32,
    /// The producer's reference.
    pub from_reference: u32,
    /// The handle of the consumer.
    pub to_handle: u32,
    /// The consumer's reference.
    pub to_reference: u32,
}

/// A step of an activity.
#[derive(Drop)]
#[cycle(activity)]
pub enum Step {
    /// A traversal of an action.
    Traverse {
        /// The number of its type.
        action: u32,
        /// The handle, if the action is traversed by one.
        handle: Option<u32>,
        /// The inline constraints.
        inline: Vec<Constraint>,
    },
    /// Steps that run one after another.
    Sequence(Vec<Step>),
    /// Steps that run in parallel.
    Parallel(Vec<Step>),
    /// Steps that run in any order that the rest of the scenario allows.
    Schedule(Vec<Step>),
    /// A `parallel` or `schedule` with a join form, whose branches are its steps.
    Joined {
        /// Whether it is a `parallel`; otherwise it is a `schedule`.
        parallel: bool,
        /// Which branches are waited for.
        join: Join,
        /// The branches.
        steps: Vec<Step>,
    },
    /// A choice of one branch.
    Select(Vec<Branch>),
    /// As many turns of a step as its count says.
    Repeat {
        /// The count.
        count: Constraint,
        /// What is repeated.
        body: Box<Step>,
    },
    /// A conditional step.
    If {
        /// The condition.
        condition: Constraint,
        /// The step where it holds.
        yes: Box<Step>,
        /// The step where it doesn't, if there is one.
        no: Option<Box<Step>>,
    },
    /// A choice by value.
    Match {
        /// The value.
        value: Constraint,
        /// The arms, each with its ranges.
        arms: Vec<Arm>,
        /// The step where no range has the value, if there is one.
        other: Option<Box<Step>>,
    },
}

/// Which branches of a block are waited for.
#[derive(Clone, Copy, Debug, PartialEq, Eq)]
pub enum Join {
    /// Certain branches: bit k stands for branch k.
    Fixed {
        /// The bits.
        joined: u64,
    },
    /// Any choice of this many branches.
    Choose {
        /// How many.
        count: u32,
    },
}

/// A branch of a `select`.
#[derive(Drop)]
#[cycle(activity)]
pub struct Branch {
    /// The condition under which it may be taken, if there is one.
    pub guard: Option<Constraint>,
    /// Its weight, 1 where the text has none.
    pub weight: u32,
    /// Its step.
    pub step: Step,
}

/// An arm of a `match`.
#[derive(Drop)]
#[cycle(activity)]
pub struct Arm {
    /// The ranges in the order of their text.
    pub spans: Vec<Span>,
    /// Its step.
    pub step: Step,
}
