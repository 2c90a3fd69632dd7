//! The desk of a run on several lanes, which lies behind one lock.
//!
//! A desk has the book of the run and the book's seat at the mailboxes. Whoever has the lock opens
//! groups and posts their actions to the lanes, or collects a lane and records the end of its
//! action. The type keeps that the trace begins a whole legal trace of the scenario that the desk's
//! name names, and that on each lane the posted actions are those that start there, and the
//! collected ones those that end there. So whoever gets the lock finds it so.
#![tactic(auto)]

mod desk;
mod name;
mod opening;
mod posting;

pub use desk::{Desk, Turned};
pub use name::Name;
