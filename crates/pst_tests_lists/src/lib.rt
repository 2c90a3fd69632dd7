//! What lists of choices read of a model, walked choice by choice, as texts. Only tests use it.
//!
//! Each choice is made behind another one at its place that is taken back.
#![tactic(auto)]

mod activity_walk;
mod source_walk;

pub use activity_walk::read_list;
pub use pst_tests_shown::Task;
