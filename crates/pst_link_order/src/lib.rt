//! Whether the order of a scenario refuses it while its sources are still being linked.
//!
//! What is known of the order so far is written as a scenario of its own, over the same nodes: each reason why one
//! action comes before another is a buffer there, each use of a state pool a claim. The plan of that scenario says
//! whether it can be run.
#![tactic(auto)]

mod implied;
mod judging;
mod named;
mod reasons;
mod takes;
mod uses;
mod written;

pub use judging::is_refused_ahead;
