//! Values that variables are given one after another, under constraints, and why the next one can't be.
#![tactic(auto)]

mod laws;
mod valued;

pub use laws::{excluded_values_hold_nothing, refusals_hold_nothing};
pub use valued::Valued;
