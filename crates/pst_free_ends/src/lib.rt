//! What a choice of a source takes from the references that may be sources, and how that is given back.
//!
//! The lists of a walk over the sources hold the references that may still be linked. A source that is
//! chosen adds the references of a new action, takes both ends of a stream out, or the writer that
//! another replaces. Places are kept, so taking a choice back puts each reference where it stood, without
//! memory.
#![tactic(auto)]

mod steps;
mod taken;

pub use steps::{follow, leave};
pub use taken::{Removed, Taken};
