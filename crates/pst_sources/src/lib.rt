//! The sources with the values of their constants, and the numbers of the fields of types.
#![tactic(auto)]

mod fields;
mod first_token;
mod items;
mod known;
mod lookup;
mod sources;

pub use known::Known;
pub use sources::Sources;
