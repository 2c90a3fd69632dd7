//! The uses of names in activities, shown to a visitor one after another.
#![tactic(auto)]

pub mod show_activity;
pub mod show_bind;
pub mod show_join;
pub mod show_traversal;
