//! Where a declaration stands among others.

/// Where a declaration stands among others.
#[derive(Clone, Copy, Debug, PartialEq, Eq)]
pub(crate) struct Among {
    /// How many stand before it; all, where it isn't there.
    pub(crate) number: usize,
    /// How many there are.
    pub(crate) count: usize,
}
