//! The parts of the steps of an activity that have no step in them.
#![tactic(auto)]

mod guards;
mod joins;
mod labels;
mod traversals;

pub use guards::{guard_of, weight_of};
pub use joins::join_of;
pub use pst_constraints::{expression_of, pop_turn, push_turn};
pub use traversals::{handle_named, handle_of, traverse_handle, traverse_type};
