//! What slots stand for.
use pst_blanks::Blank;

/// What a slot of a constraint stands for, whatever is chosen behind the sources.
#[derive(Clone, Copy, Debug, PartialEq, Eq)]
pub enum Meaning {
    /// It has this value.
    Value(i64),
    /// It has the value that stands in this blank, for a claim's the number of the instance.
    Blank(Blank),
    /// It never has a value.
    Nothing,
    /// It isn't told.
    Untold,
}
