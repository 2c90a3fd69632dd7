//! Judges a foreign trace of a scenario: whether it is legal, and else which block breaks which rule.
#![tactic(auto)]

mod checking;
mod group;
mod judge;
mod laws;
mod marks;
mod past;
mod rules;
mod starts;
mod verdict;

pub use checking::check;
pub use laws::{unbroken_is_begun, verdicts_are_one};
pub use verdict::Verdict;
