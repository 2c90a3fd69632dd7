//! The steps of a body, made from its statements.
#![tactic(auto)]

mod statements;
mod steps;

pub use steps::{body_steps, setting_in};
