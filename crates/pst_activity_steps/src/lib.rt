//! The steps of an activity, made from its statements.
#![tactic(auto)]

mod statements;

pub use statements::activity_steps;
