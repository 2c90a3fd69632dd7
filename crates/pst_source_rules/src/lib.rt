//! Judging sources by all rules, in their order: names, types, the number of instances, pools and
//! the root.
#![tactic(auto)]

mod by_sites;
mod judged;
mod last;
mod root;

pub use judged::{Judged, judge};
