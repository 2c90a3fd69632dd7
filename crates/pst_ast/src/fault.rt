//! The faults of parsing.
use pst_base::NoMemory;
use thiserror::Error;

/// Why a list of tokens was not read as a tree.
#[derive(Clone, Copy, Debug, PartialEq, Eq, Error)]
pub enum SyntaxFault {
    /// No tree of the grammar begins with the tokens up to and including the one at `at`.
    #[error("unexpected token {at}")]
    At {
        /// The index of the token.
        at: usize,
    },
    /// The token at `at` is nested too deeply, or is one operator too many.
    #[error("token {at} is nested too deeply")]
    Deep {
        /// The index of the token.
        at: usize,
    },
    /// Memory ran out.
    #[error("out of memory")]
    NoMemory,
}

impl From<NoMemory> for SyntaxFault {
    fn from(_error: NoMemory) -> SyntaxFault {
        SyntaxFault::NoMemory
    }
}
