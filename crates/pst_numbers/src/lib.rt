//! The types of the sources in order of declaration, and what names mean as numbers.
#![tactic(auto)]

mod in_order;
mod keys;
mod listed;
mod meanings;
mod numbering;
mod ranking;

pub use listed::entries;
pub use meanings::scopes;
