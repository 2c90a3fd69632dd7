//! Places of a list of choices at which the fields of compound actions are given values, while the activity is being
//! read.
//!
//! Each law is the contract of a function that does nothing. A caller that needs a law in a proof
//! calls its function.
#![tactic(auto)]

mod laws;
mod place;

pub use laws::{fields_are_places, fields_have_values};
pub use place::FieldPlace;
