//! How judging names ends without scopes.
use pst_base::Place;
use thiserror::Error;

/// Why sources have no scopes.
#[derive(Clone, Copy, Debug, PartialEq, Eq, Error)]
pub enum RuleEnd {
    /// A rule of names is broken: the least place of all breaches, and the least rule that is broken
    /// there.
    #[error("a rule is broken")]
    Broken {
        /// The place.
        place: Place,
        /// The number of the rule.
        rule: u8,
    },
    /// Memory ran out.
    #[error("memory ran out")]
    NoMemory,
}
