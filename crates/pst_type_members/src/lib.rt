//! The members of types with those of their bases, in order and by number.
#![tactic(auto)]

mod among;
mod handles;
mod key;
mod lists;
mod rows;
mod scopes;

pub use lists::{MemberSort, number_in};
pub use rows::Members;
