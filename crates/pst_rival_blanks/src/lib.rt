//! Pairs of blanks that must have different numbers in every legal scenario that fills them, because their claims are
//! rivals, and the constraints that say so.
#![tactic(auto)]

mod bare;
mod constraints;
mod earlier;
mod pairs;

pub use constraints::{differing, rival_constraints};
pub use pairs::{Rival, rivals};
