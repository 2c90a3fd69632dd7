//! Sets of whole numbers as spans: joined where they touch, and what two of them have in common.
#![tactic(auto)]

mod common;
mod domain;
mod join;

pub use common::common_spans;
pub use domain::domain_of;
pub use join::joined_spans;
