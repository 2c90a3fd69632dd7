//! Counts of what must come before each action, and of what is in its way, in which a word of 64 pairs
//! is one step.
#![tactic(auto)]

mod rows;
mod tallies;

pub use rows::{is_full, is_marked, word_at, word_end};
pub use tallies::{count_awaited, is_none, lower_awaited, lower_in_the_way, raise_in_the_way};
