//! The sources of needs: which references want one, and walks through the choices that give them
//! one, with the actions that are inferred for it.
#![tactic(auto)]

mod listing;
mod walk;

pub use listing::{Need, needs};
pub use walk::SupplyWalk;
