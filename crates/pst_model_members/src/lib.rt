//! The references and claims of the action types of a model.
#![tactic(auto)]

mod locks;
mod needs;

pub use locks::{is_locked, locked_places};
pub use needs::{claims_of, object_of, references_of};
