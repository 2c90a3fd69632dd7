//! The domains of the fields of the sources.
#![tactic(auto)]

mod base;
mod fields;
mod points;
mod power;
mod ranges;
mod row;
mod table;
mod types;

pub use fields::FieldDomains;
