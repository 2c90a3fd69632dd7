//! The numbers of action types, object types and functions.
#![tactic(auto)]

mod numbered;
mod places;

pub use numbered::Numbered;
