//! What the slots of a scenario's constraints stand for, which statement each node of a scenario
//! stands for, and the list of a scenario's constraints. Each law is the contract of a function
//! that does nothing; a caller that needs a law in a proof calls its function.
#![tactic(auto)]

mod laws;
mod statements_laws;

pub use laws::{slots_are_decided, slots_are_placed};
pub use statements_laws::{constraints_are_listed, statements_are_found};
