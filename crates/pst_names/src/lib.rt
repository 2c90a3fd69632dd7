//! The rules of names.
#![tactic(auto)]

mod breaches;
mod end;
mod judge;
mod judge_joins;
mod judge_paths;
mod judge_targets;
mod judge_uses;
mod sources;

pub use end::RuleEnd;
pub use judge_targets::{TargetRead, read_target};
pub use sources::{resolve, resolve_by};
