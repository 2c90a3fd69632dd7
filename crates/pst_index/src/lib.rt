//! Look-ups among what the sources declare, none of which goes through the list of declarations,
//! and what names and paths of names stand for where they are used.
#![tactic(auto)]

mod bases;
mod ends;
mod first;
mod index;
mod key;
mod members;
mod paths;
mod tabled;
mod types;
mod values;
mod words;

pub use ends::PathFor;
pub use index::Index;
pub use paths::{is_ambiguous, read_path};
pub use values::{handled, stands_for, traversed, traversed_member, value_named};
pub use words::is_text;
