//! The walk over the sources: it shows a visitor (`Visitor` of `pst_walk_parts`) each use of a name,
//! in the order of the text.
#![tactic(auto)]

mod show_action;
mod show_component;
mod show_type;
mod whole;

pub use whole::walk;
