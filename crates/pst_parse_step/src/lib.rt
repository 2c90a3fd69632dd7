//! Parses parts of activities: what stands before a statement, join forms, ends that are bound to one
//! another, and traversals.
#![tactic(auto)]

pub mod labels;
pub mod parts;
pub mod traversal;
