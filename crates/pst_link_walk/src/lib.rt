//! A walk through the lists of choices that fill an activity and give its needs their sources.
#![tactic(auto)]

mod walk;

pub use walk::LinkWalk;
