//! The functions of a model.
#![tactic(auto)]

mod functions;

pub use functions::model_functions;
