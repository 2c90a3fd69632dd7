//! The tokens of several texts in one table of names.
//!
//! Each law is the contract of a function that does nothing.
#![tactic(auto)]

mod laws;

pub use laws::tokens_of_texts_are_one;
