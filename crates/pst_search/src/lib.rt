//! The search for the first legal scenario: the one with the fewest inferred actions and, among those, the
//! first in the order of the seed.
#![tactic(auto)]

mod first;
mod judging;
mod linked;
mod looking;
mod planned;
mod reading;
mod whole;

pub use first::{SearchEnd, search};
