//! How a text ends.

/// What the last line of a text says.
#[derive(Clone, Copy, Debug, PartialEq, Eq)]
pub enum Last {
    /// Every action of the scenario has ended.
    Done,
    /// The scenario was found, and not run.
    Solved,
    /// A lane failed in the body of an action that runs on it.
    Fault {
        /// The lane.
        lane: u32,
        /// The action.
        action: u32,
        /// The number of the call that failed among the calls of this body, counted from 1.
        call: u32,
    },
    /// The body of an action trapped.
    Trap {
        /// The lane on which the action runs.
        lane: u32,
        /// The action.
        action: u32,
        /// The kind of the trap.
        kind: u8,
    },
}
