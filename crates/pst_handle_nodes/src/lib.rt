//! The nodes that handles of activities lead to.
//!
//! A compound action names a traversal of its activity by a handle. In a filled-in activity that traversal stands for a
//! node, which is looked for on the way down from the node of the compound action.
#![tactic(auto)]

mod nodes;
mod ways;

pub use nodes::{are_behind, node_behind};
