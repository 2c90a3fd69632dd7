//! What of the order of a legal scenario is known while its sources are still being linked.
//!
//! Each law is the contract of a function that does nothing. A caller that needs a law in a proof
//! calls its function.
#![tactic(auto)]

mod laws;

pub use laws::{must_ahead_comes, refusals_ahead_stay, trees_are_laid_out};
