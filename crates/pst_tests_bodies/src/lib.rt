//! Tests of the run of bodies on a lane, and bodies that are written as numbers.
#![tactic(auto)]

#[cfg(test)]
mod cases;
mod reading;
mod running;

pub use reading::{Numbers, read_steps};
pub use running::{functions, has_types};
