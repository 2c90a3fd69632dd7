//! The law of the names that texts have in their own table.
//!
//! The crate has no behaviour.
#![tactic(auto)]

mod laws;

pub use laws::names_of_texts_are_names;
