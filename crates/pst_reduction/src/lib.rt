//! Fewer pairs of a square that lead as far: those that lead through another number are left out.
#![tactic(auto)]

mod reducing;

pub use reducing::reduced;
