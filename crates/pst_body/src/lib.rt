//! Runs bodies of atomic actions on a lane.
//!
//! A body calls the functions of a lane. What it does with their answers, and when it traps, is defined by `body_run` of
//! `pst_legal`.
#![tactic(auto)]

mod body;
mod call;
mod ending;
mod memory;
mod need;
mod site;
mod slot;
mod step;
mod turns;

pub use body::run_body;
pub use ending::BodyEnd;
