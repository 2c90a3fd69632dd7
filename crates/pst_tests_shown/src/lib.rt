//! What is read of a scenario, as texts: nodes, actions with their links, and behind them what lists of
//! choices read of claims and values, walked choice by choice. Only tests use it. It promises nothing of
//! the texts.
//!
//! Each choice is made behind another one at its place that is taken back.
#![tactic(auto)]

mod actions;
mod blanks;
mod nodes;
mod parts;
mod task;
mod value_walk;
mod values;

pub use actions::show_actions;
pub use nodes::show_nodes;
pub use task::Task;
pub use value_walk::read_values;
