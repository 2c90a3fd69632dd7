//! Copies of the nodes and actions of a scenario.
#![tactic(auto)]

mod acts;
mod nodes;
mod values;

pub use acts::{copy_act, copy_acts};
pub use nodes::copy_nodes;
