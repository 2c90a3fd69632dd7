//! The sources of a generated model, and what is printed of a run of it.
#![tactic(auto)]

mod counts;
mod sources;

pub use counts::counts_text;
pub use sources::generated_text;
