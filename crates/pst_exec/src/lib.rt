//! Runs scenarios on lanes.
//!
//! A run starts the groups of a scenario's actions by a book, runs their bodies on the lanes, and records their ends. On one
//! lane one action runs after another.
#![tactic(auto)]

mod alone;
mod ending;
mod laws;

pub use alone::run_one;
pub use ending::RunEnd;
pub use laws::core_makes_blocks;
