//! The table of a sweep over seeds: a row for each seed says what its search comes to, and how often
//! each action type is used. A row keeps counts alone.
#![tactic(auto)]

mod counting;
mod laws;
mod row;
mod uses;

pub use laws::rows_are_one;
pub use row::{Outcome, SweepRow, Table};
pub use uses::Uses;
