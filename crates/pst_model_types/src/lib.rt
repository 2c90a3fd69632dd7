//! The object types and the action types of a model, with the constraints of both.
#![tactic(auto)]

mod action;
mod actions;
mod bases;
mod object;
mod objects;
mod setting;

pub use action::{action_constraints, component_name};
pub use actions::model_actions;
pub use objects::model_objects;
pub use setting::setting_of;
