//! Plans of scenarios that are still being read.
//!
//! Each law is the contract of a function that does nothing. A caller that needs a law in a proof
//! calls its function.
#![tactic(auto)]

mod laws;

pub use laws::{plans_refuse_lists, sources_are_built};
