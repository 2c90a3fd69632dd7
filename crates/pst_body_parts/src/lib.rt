//! The parts of a body: its locals and their scopes, and its single steps.
#![tactic(auto)]

mod calls;
mod locals;
mod scopes;
mod single;

pub use locals::locals_in;
pub use scopes::{enter_behind, leave_locals};
pub use single::{assign, call_step, declare, if_of, repeat_of};
