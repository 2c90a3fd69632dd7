//! The paths in an expression, shown one after another.
#![tactic(auto)]

mod paths;
mod visitor;

pub use paths::show_paths;
pub use visitor::PathVisitor;
