//! A token with its place.
use crate::Kind;
use pst_base::{NameId, Place};

/// A token of a text.
#[derive(Clone, Copy, Debug, PartialEq, Eq)]
pub struct Token {
    /// What it is.
    pub kind: Kind,
    /// The number of a name's text, and 0 for every other kind.
    pub name: NameId,
    /// The value of a number, and 0 for every other kind.
    pub number: i64,
    /// Where its first byte stands.
    pub place: Place,
}
