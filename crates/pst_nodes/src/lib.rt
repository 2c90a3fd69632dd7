//! The nodes of a filled-in activity: which actions stand behind which in its sequences, and which in
//! different branches of a `parallel`.
#![tactic(auto)]

mod before;
mod behind;
mod beside;
mod climb;
mod parallel;
mod statements;
mod tables;

pub use behind::add_behinds;
pub use beside::first_beside;
pub use parallel::{stand_parallel, stands_in_parallel};
pub use statements::stands_before;
pub use tables::Tables;
