//! Writes traces as texts, by the definitions of `pst_trace_texts`.
#![tactic(auto)]

mod acts;
mod elements;
mod events;
mod lookups;
mod nodes;
mod paths;
mod values;
mod whole;

pub use whole::{header, write_trace};
