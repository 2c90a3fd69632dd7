//! A sweep over seeds: the search of each, in as many threads as there are processors, with the table
//! that a loop over the seeds may give.
#![tactic(auto)]

mod many;
mod sweeping;

pub use pst_sweep_table::{Outcome, SweepRow, Table, Uses};
pub use sweeping::sweep;
