//! Parses bodies.
#![tactic(auto)]

mod body;
mod call;
pub mod laws;
mod parse;
mod plain;

pub use body::read_body;
pub use parse::parse_body;
