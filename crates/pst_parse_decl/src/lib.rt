//! Parses objects, actions, components, and the parts of a unit.
#![tactic(auto)]

pub mod actions;
mod boxes;
pub mod components;
mod inner;
pub mod laws;
pub mod objects;
mod parse;

pub use parse::parse_item;
