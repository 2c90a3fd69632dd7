//! The uses of names in expressions, types, fields and constraints, shown to a visitor one after
//! another.
#![tactic(auto)]

pub mod path_parts;
pub mod show_constraint;
pub mod show_expression;
pub mod show_shared;
mod visitor;

pub use visitor::{Role, Visitor, Wanted};
