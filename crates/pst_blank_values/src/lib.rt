//! What stands in the blanks of a scenario once options are filled into them.
//!
//! Each law is the contract of a function that does nothing. A caller that needs a law in a proof
//! calls its function.
#![tactic(auto)]

mod laws;

pub use laws::filled_blanks_stand;
