//! The answers of the program, and which of them is right: definitions, and the law that it is one.
//!
//! The page to read is `specs/Outcome`.
#![tactic(auto)]

mod answer;
mod laws;
mod reply;
mod task;

pub use answer::{Answer, What};
pub use laws::answers_are_one;
pub use pst_place_answers::Space;
pub use reply::Reply;
pub use task::{Task, Work};
