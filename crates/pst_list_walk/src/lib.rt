//! A walk through whole lists of choices: the activity, the sources, and then the claims and values.
#![tactic(auto)]

mod walk;

pub use walk::ListWalk;
