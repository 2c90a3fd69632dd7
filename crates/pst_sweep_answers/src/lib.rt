//! What is answered to a sweep over seeds: a line for each seed, how often each action type is used in
//! all scenarios, and how many seeds have one.
#![tactic(auto)]

mod lines;
mod show;
mod totals;

pub use pst_sweep_table::{Outcome, SweepRow, Table, Uses};
pub use show::{ShownSweep, show_sweep};
