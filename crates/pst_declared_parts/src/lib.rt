//! The object types and pools of the sources, each by the place of its name.
#![tactic(auto)]

mod objects;
mod pools;

pub use objects::ObjectSites;
pub use pools::PoolSites;
