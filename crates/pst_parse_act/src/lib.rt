//! Parses activities.
#![tactic(auto)]

mod activity;
pub mod laws;
mod parse;

pub use parse::{parse_activity, read_activity};
