//! Whether a model is sound, and the pools that a sound model serves.
#![tactic(auto)]

mod soundness;
mod steps;
mod ties;
mod types;

pub use soundness::{pool_of, sound};
