//! Programs of lanes that need no executive, and a machine that runs them.
//!
//! A plan's groups are put in one order, their members get lanes along it, and each lane's program
//! awaits what its actions need of other lanes.
#![tactic(auto)]

mod awaits;
mod deal;
mod drafts;
mod latest;
mod laws;
mod machine;
mod order;
mod programs;
mod rows;
mod run;
mod standing;
mod tables;

pub use laws::programs_are_few;
pub use machine::Machine;
pub use programs::lane_programs;
