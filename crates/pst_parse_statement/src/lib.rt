//! The rules of the statements of activities, their two laws, and the words that begin them.
#![tactic(auto)]

pub mod keeping;
pub mod words;
