//! The book of a run: its trace, and the two commands that make it.
//!
//! A book starts the least startable group of actions on the least idle lanes, and records the ends
//! of actions. Each trace that it makes is legal and can be completed. What it keeps of a trace are
//! tables in slices, which a judge of a trace can keep too.
#![tactic(auto)]

mod book;
mod open;
mod ready;
mod rows;
mod run;
mod tables;
mod waiting;

pub use book::{Book, Opened};
pub use rows::{lower, raise};
pub use tables::{count_awaited, fill_next, free};
