//! Parses units.
#![tactic(auto)]

pub mod laws;
mod units;

pub use units::parse_unit;
