//! What is answered of a scenario that isn't run: its header, and the verdict on a trace file.
#![tactic(auto)]

mod check;
mod laws;
mod solve;

pub use check::{CheckAnswer, checked};
pub use laws::checks_are_one;
pub use solve::solved_text;
