//! The references that the binds of activities join in a filled-in activity.
//!
//! A bind of an activity names two handles. In a filled-in activity these stand for two atomic
//! actions, so the bind joins an output of one to an input of the other.
#![tactic(auto)]

mod fixed;
mod found;
mod handles;
mod tied;

pub use fixed::Ties;
pub use tied::{End, Tied};
