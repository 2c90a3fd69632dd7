//! Bounds of variables made narrower by constraints, and the way back to the former bounds.
//!
//! Narrowing never loses a solution: values within the bounds under which every constraint holds stay within them.
#![tactic(auto)]

mod chain;
mod compare;
mod demand;
mod element;
mod logic;
mod meet;
mod mentions;
mod narrowing;
mod operands;
mod parts;
mod require;
mod revise;
mod settle;
mod sums;
mod trail;
mod truth;
mod watch;

pub use mentions::{narrowing_is_local, others_dont_matter};
pub use narrowing::narrow;
pub use settle::look_again;
pub use trail::{Former, Trail};
pub use watch::Watch;
