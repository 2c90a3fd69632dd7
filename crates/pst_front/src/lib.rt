//! From the words of a line to the model of its sources: the files are read, cut into tokens, parsed
//! and elaborated, or there is an answer on the way.
#![tactic(auto)]

mod files;
mod front;
mod replies;
mod sources;
mod stage;

pub use files::front_of_line;
pub use front::{LineFront, trace_of};
pub use stage::Stage;
