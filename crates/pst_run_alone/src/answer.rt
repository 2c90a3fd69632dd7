//! What a run on one lane is answered.

/// What a run on one lane is answered.
#[derive(Clone, Copy, Debug, PartialEq, Eq)]
pub enum RunAnswer {
    /// The scenario was run whole.
    Done {
        /// How many actions it has.
        actions: u32,
    },
    /// The widest group of actions that start together needs more lanes than there are. No lane was
    /// called.
    Narrow {
        /// How many lanes it needs.
        need: u32,
        /// How many there are.
        have: u32,
    },
    /// A lane failed in the body of an action that runs on it: its count of faults rose, or stands at
    /// its last value.
    TargetFault {
        /// The lane.
        lane: u32,
        /// The action.
        action: u32,
        /// The number of the call that failed among the calls of this body, counted from 1.
        call: u32,
    },
    /// The body of an action trapped.
    BodyTrap {
        /// The lane on which the action runs.
        lane: u32,
        /// The action.
        action: u32,
        /// The kind of the trap.
        kind: u8,
    },
}

/// An answer with its text: the trace of the run, or how many lanes it needs and has.
#[derive(Drop)]
pub struct ShownRun {
    /// The answer.
    pub answer: RunAnswer,
    /// The text.
    pub text: String,
}
