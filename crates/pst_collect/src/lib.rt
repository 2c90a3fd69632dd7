//! What the sources declare, collected from their trees.
#![tactic(auto)]

mod collect_activity;
mod collect_body;
mod collect_constraint;
mod collect_member;
mod collect_type;
mod collected;
mod single;

pub use collected::declarations;
