//! The binds of pools in the sources.
#![tactic(auto)]

mod bind_defaults;
mod bind_targets;
mod found_binds;

pub use bind_defaults::default_binds;
pub use bind_targets::explicit_binds;
pub use found_binds::{FoundBind, FoundDefault};
