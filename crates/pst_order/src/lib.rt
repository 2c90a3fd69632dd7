//! The laws of order, of legal traces and of the core.
//!
//! Each law is the contract of a function that does nothing. A caller that needs a law in a proof
//! calls its function.
#![tactic(auto)]

mod commands;
mod groups;
mod order;
mod refusals;
mod rule;

pub use commands::{core_is_by_rule, core_is_one};
pub use groups::{groups_are_whole, members_are_those};
pub use order::{blocks_are_one, must_is_kept, must_keeps_groups, running_meet, whole_is_sound};
pub use refusals::unrefused_is_planned;
pub use rule::{
    prefix_is_by_rule, readers_are_kept, rule_fits, rule_goes_on, rule_is_legal, rule_is_prefix,
};
