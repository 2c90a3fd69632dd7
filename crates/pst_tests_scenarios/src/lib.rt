//! Scenarios, their plans and models of bodies that are written as texts, for tests.
//!
//! A scenario is its nodes behind the root, each with its kind and its parent; `|`, and its actions, each by its references and claims.
#![tactic(auto)]

mod built;
mod models;
mod scenarios;

pub use models::model_of;
pub use scenarios::{end_of, number, planned, scenario_of};
