//! The references of a scenario's actions that may be sources, pool by pool.
//!
//! A need asks for the references of one pool and of one kind. They are kept in lists of their own, by
//! action and reference, so that nobody looks through all actions. The lists grow where an action is
//! added, and shrink where it is taken away. A stream end that is linked, and a writer that another
//! replaces, is taken out of its list, and put back at its place where the link is taken back.
#![tactic(auto)]

mod ends;
mod kinds;
mod places;
mod sources;

pub use ends::SourceEnds;
pub use kinds::{is_source_for, is_writer};
pub use sources::PoolSources;
