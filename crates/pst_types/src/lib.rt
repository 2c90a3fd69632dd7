//! The rules of types, and the values of constants.
#![tactic(auto)]

mod checked;

pub use checked::{check, check_sites};
pub use pst_type_rules::{ConstantValue, Typed};
