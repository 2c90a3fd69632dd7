//! Follows the blocks of a trace by the core's rule, with counts.
//!
//! A trace is cut into blocks, and its first blocks are followed as long as each is one that the
//! rule allows: a group whose turn it is starts on free lanes, or a running action ends. Each event
//! costs what a book pays for it. Nothing is said of the first block that isn't followed.
#![tactic(auto)]

mod blocks;
mod following;
mod starts;
mod tables;

pub use blocks::{act_of, behind, first_block, front, lane_of};
pub use following::{Followed, follow};
