//! Walks through the choices behind the sources: the instances that claims claim, and the values of
//! first objects, of actions, of what they write and of what they claim.
#![tactic(auto)]

mod walk;

pub use walk::ValueWalk;
