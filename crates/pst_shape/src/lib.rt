//! Walks through the choices that fill an activity.
#![tactic(auto)]

mod pick;
mod walk;

pub use walk::{Growth, Walk};
