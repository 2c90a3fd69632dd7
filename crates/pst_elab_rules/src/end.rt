//! Why sources have no model.
use pst_base::Place;

/// Why sources have no model.
#[derive(Clone, Copy, Debug, PartialEq, Eq)]
pub enum ElabEnd {
    /// A rule is broken: the first breach.
    Broken {
        /// The place.
        place: Place,
        /// The number of the rule.
        rule: u8,
    },
    /// There are more instances than the limit of 256.
    Many {
        /// The limit plus 1.
        count: u32,
    },
    /// There was no memory.
    NoMemory,
}
