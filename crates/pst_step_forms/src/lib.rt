//! The forms of an activity's steps, each made of its parts: blocks, choices, conditional steps and
//! repetitions, and the branches and arms of choices one after another.
#![tactic(auto)]

mod arms;
mod made;

pub use arms::{Arms, no_arms, push_arm, push_branch};
pub use made::{if_of, match_of, repeat_of, select, sequence, together};
