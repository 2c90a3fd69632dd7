//! Laws of what a list of choices has read, whole or so far: which ends its links join, which blanks
//! are open and for which places they wait, and which constraints are refused.
//!
//! Each law is the contract of a function that does nothing. A caller that needs a law in a proof
//! calls its function.
#![tactic(auto)]

mod laws;

pub use laws::{
    blanks_are_read_in_turn, constraints_stay_refused, links_join_open_ends, open_blanks_wait,
    open_slots_wait, readings_fit_ahead,
};
