//! The calls of the program: words are answered over a shelf of files, with a lane on which bodies are
//! run, and the text of the answer is written to a sink.
#![tactic(auto)]

mod asked;
mod replies;
mod request;
mod task;
mod top;
mod words;

pub use top::{portable_alone, portable_stimulus, portable_sweep};
