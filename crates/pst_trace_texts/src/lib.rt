//! What a trace is as a text.
//!
//! The crate has no behaviour: the definitions stand in `specs/`, for the writer, the reader and the program to cite.
#![tactic(auto)]

mod last;

pub use last::Last;
