//! Laws of the whole grammar, above the parsers.
#![tactic(auto)]

pub mod laws;
