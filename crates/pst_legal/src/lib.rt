//! What a scenario of a model is, which scenarios are legal, in which order they are searched, and
//! what a body does.
//!
//! The crate has no behaviour: its definitions stand in `specs/`, for every part of the product to
//! cite.
#![tactic(auto)]

mod laws;

pub use laws::{bodies_end_once, first_is_one};
