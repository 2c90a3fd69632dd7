//! What is answered of a scenario's programs of lanes, with its text.
#![tactic(auto)]

mod answer;
mod laws;
mod show;

pub use answer::{ShownStatic, StaticAnswer};
pub use laws::static_answers_are_one;
pub use show::show_static;
