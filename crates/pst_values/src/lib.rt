//! The values of variables under constraints, in the order of a seed.
#![tactic(auto)]

mod options;
mod search;
mod solver;
mod tried;

pub use options::{Run, run_at, span_of_run};
pub use search::ValueSearch;
pub use tried::Tried;
