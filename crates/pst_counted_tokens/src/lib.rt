//! What counts towards the limits at the tokens of trees.
//!
//! A law is the contract of a function that does nothing. A caller that needs it in a proof calls
//! its function.
#![tactic(auto)]

mod laws;

pub use laws::each_token_counts_once;
