//! What is answered of the model of sources where many seeds are searched.
#![tactic(auto)]

mod sweep;

pub use sweep::answer_sweep;
