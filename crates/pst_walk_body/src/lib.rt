//! The uses of names in bodies, shown to a visitor one after another.
#![tactic(auto)]

pub mod show_body;
