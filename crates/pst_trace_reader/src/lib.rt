//! Reads traces from texts, in either format.
#![tactic(auto)]

mod body;
mod laws;
mod line;
mod read;
mod text;

pub use laws::readings_are_one;
pub use read::{TraceEnd, read_trace};
pub use text::TraceText;
