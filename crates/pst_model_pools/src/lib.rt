//! The component instances and pools of a model, and what the pools serve.
#![tactic(auto)]

mod parts;
mod pools;

pub use parts::{model_parts, model_serves};
pub use pools::model_pools;
