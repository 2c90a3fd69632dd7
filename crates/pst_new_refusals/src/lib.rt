//! Which constraints may newly be refused where a scenario has gone on from another one of which none
//! was: those of new actions, of new nodes and of what they use, and those that look behind handles at
//! what stands above these. All others are as they were.
#![tactic(auto)]

mod far;
mod looking;
mod named;
mod newly;
mod settled;

pub use far::{FarTypes, far_types};
pub use newly::some_newly_refused;
