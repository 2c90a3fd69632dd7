//! Words that are a function of a seed and a place, and where a choice among options begins.
//!
//! The word at a place is that of the generator `Pcg64` of `rand_pcg`, made by `seed_from_u64` and
//! read one word after another. [`word`] jumps to any place in a logarithmic number of steps, and
//! [`Words`] reads the places in order, one step each. Nothing here takes memory.
#![tactic(auto)]

mod reading;
mod starting;
mod weights;

pub use reading::{Words, word};
pub use starting::{start, weighted_start};
