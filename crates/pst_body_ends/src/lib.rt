//! Laws of how bodies end: by traps of three kinds alone, and within few calls.
//!
//! The crate has no behaviour.
#![tactic(auto)]

mod laws;

pub use laws::bodies_are_short;
