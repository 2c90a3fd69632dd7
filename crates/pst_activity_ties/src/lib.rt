//! The binds of activities, in the order of their text.
#![tactic(auto)]

mod ends;
mod walk;

pub use walk::ties_in;
