//! What the rules of handles ask of the uses of names in the sources: the pairs of ends that binds
//! join, and the handles that constraints, bodies and binds name.
#![tactic(auto)]

mod first_names;
mod handle_use;
mod visitor;
mod whole;

pub use handle_use::{Judging, Tied};
pub use visitor::HandleUses;
pub use whole::handle_uses;
