//! The constraints of a scenario whose needs have their sources, written over its blanks: variable i is
//! the value of blank i.
//!
//! What an array's element stands for is written where the array's elements are blanks that follow one
//! another. A constraint that can't be written is left out.
#![tactic(auto)]

mod bare;
mod constraints;
mod folding;
mod numbers;
mod spans;
mod term;
mod writing;

pub use constraints::{Written, write_constraints};
pub use term::Term;
pub use writing::write;
