//! Runs a scenario on one lane, and makes the text of what that came to.
#![tactic(auto)]

mod answer;
mod laws;
mod run;

pub use answer::{RunAnswer, ShownRun};
pub use laws::{runs_are_one, traces_are_one};
pub use run::{show_end, show_run, show_whole};
