//! The values of constant expressions and of enum items.
#![tactic(auto)]

mod constant;
mod evaluated;
mod expression;
mod item;
mod items;
mod knowledge;
mod laws;
mod listing;
mod operators;
mod order;
mod settled;
mod sources;

pub use constant::constant_value;
pub use items::{ItemValues, item_values};
pub use laws::constants_are_found;
