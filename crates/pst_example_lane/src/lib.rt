//! An example of a lane of one's own: a set of registers. No program uses it.
#![tactic(auto)]

mod register_lane;

pub use register_lane::RegisterLane;
