//! What declarations break of the rules of types.
#![tactic(auto)]

mod counted;
mod declarations;
mod fields;
mod findings;
mod grouped;
mod member;
mod shape;
mod sources;
mod tallies;
mod tally;

pub use declarations::declarations_finding;
