//! What is known of slots once a list of choices has read the activity and the sources.
//!
//! Each law is the contract of a function that does nothing. A caller that needs a law in a proof
//! calls its function.
#![tactic(auto)]

mod laws;

pub use laws::lists_behind_the_sources;
