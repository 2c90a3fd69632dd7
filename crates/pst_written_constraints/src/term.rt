//! What slots are written as.

/// What a slot of a constraint is written as.
#[derive(Clone, Copy, Debug, PartialEq, Eq)]
pub enum Term {
    /// A number.
    Number(i64),
    /// The variable of a blank, by the blank's number.
    Variable(u32),
    /// An expression without a value.
    Nothing,
    /// It can't be written.
    Unknown,
}
