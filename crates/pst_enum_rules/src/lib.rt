//! What enums break of the rules of types.
#![tactic(auto)]

mod enums;
mod first_place;

pub use enums::enums_finding;
