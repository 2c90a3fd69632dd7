//! Programs of lanes as texts.
#![tactic(auto)]

mod writer;

pub use writer::{count_instructions, write_programs};
