//! The values that enums have.
#![tactic(auto)]

mod gather;
mod row;
mod table;

pub use row::EnumValues;
pub use table::EnumTable;
