//! Parses parts that several rules have: names, ranges, plain types and counts.
#![tactic(auto)]

pub mod marks;
pub mod names;
pub mod plain;
pub mod ranges;
pub mod times;
