//! Models as texts, for tables of cases.
#![tactic(auto)]

mod activities;
mod bodies;
mod expressions;
mod models;
mod page;
mod types;

pub use models::model_text;
