//! References that are joined.

/// The number of an action and of its reference.
#[derive(Clone, Copy, Debug, PartialEq, Eq, Hash)]
pub struct End {
    /// The action.
    pub act: usize,
    /// The reference.
    pub reference: usize,
}

/// An output of one action that is bound to an input of another.
#[derive(Clone, Copy, Debug, PartialEq, Eq)]
pub struct Tied {
    /// The output.
    pub from: End,
    /// The input.
    pub to: End,
}
