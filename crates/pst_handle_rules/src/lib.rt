//! What the sources break of the rules of handles: handles that aren't traversed exactly once, and
//! ends that are bound twice.
#![tactic(auto)]

mod based;
mod end_key;
mod findings;
mod same;
mod twice;
mod unsteady;

pub use findings::handle_findings;
