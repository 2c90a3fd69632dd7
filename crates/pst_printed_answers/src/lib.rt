//! Laws of printed runs: what `run` prints is what `check` takes.
//!
//! The crate has no behaviour.
#![tactic(auto)]

mod laws;

pub use laws::{
    models_are_taken, names_of_models_are_printed, scenarios_are_taken, shared_runs_are_taken,
};
