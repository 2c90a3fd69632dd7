//! The parts of a walk through an activity: the conditions, the instances, the branches, and the tree
//! as it grows.
#![tactic(auto)]

mod branches;
mod context;
mod grown;
mod within;

pub use branches::{Branches, Numbered, arm_with, mask_of};
pub use context::Frame;
pub use grown::Grown;
pub use within::instances;
