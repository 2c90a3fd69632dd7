//! How many live lists of choices stand up to a scenario, or in the levels that are searched.
//!
//! Each law is the contract of a function that does nothing. A caller that needs a law in a proof
//! calls its function.
#![tactic(auto)]

mod laws;

pub use laws::few_lists_spend_no_budget;
