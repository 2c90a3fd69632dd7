//! What a walk over choices stands at.

/// What a walk over choices stands at.
#[derive(Clone, Copy, Debug, PartialEq, Eq)]
pub enum Next {
    /// A place with so many options.
    Options(u64),
    /// The end: all has been chosen.
    Whole,
    /// A dead end.
    Dead,
}
