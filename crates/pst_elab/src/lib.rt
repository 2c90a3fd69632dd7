//! The model of the sources, or the first breach of a rule.
#![tactic(auto)]

mod elaborated;
mod model;

pub use elaborated::elaborate;
pub use pst_elab_rules::ElabEnd;
