//! Parses expressions and constraints.
#![tactic(auto)]

pub mod constraint;
pub mod laws;
mod parse;
pub mod shared;

pub use constraint::set;
pub use parse::{parse_constraint, parse_expr};
pub use shared::{Condition, dot_names, next_exprs, outermost, read_condition};
