//! What is answered of a scenario's programs of lanes.

/// What is answered of a scenario's programs of lanes.
#[derive(Clone, Copy, Debug, PartialEq, Eq)]
pub enum StaticAnswer {
    /// The programs are printed.
    Static {
        /// How many instructions they have.
        instructions: u32,
    },
    /// The widest group of actions that start together needs more lanes than there are.
    Narrow {
        /// How many lanes it needs.
        need: u32,
        /// How many there are.
        have: u32,
    },
}

/// An answer with its text: the programs, or how many lanes are needed and there are.
#[derive(Drop)]
pub struct ShownStatic {
    /// The answer.
    pub answer: StaticAnswer,
    /// The text.
    pub text: String,
}
