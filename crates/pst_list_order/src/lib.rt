//! The order in which lists of choices are searched.
//!
//! Each law is the contract of a function that does nothing. A caller that needs a law in a proof
//! calls its function.
#![tactic(auto)]

mod laws;

pub use laws::{before_is_an_order, levels_end, live_lists_rise, steps_keep_the_order};
