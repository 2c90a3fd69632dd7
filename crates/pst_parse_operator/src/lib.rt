//! Parses levels of operators and what stands between operators.
#![tactic(auto)]

pub mod expression;
pub mod operators;
