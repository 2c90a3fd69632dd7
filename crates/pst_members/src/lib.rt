//! Members of actions with their bases', each found at once however many bases there are, by maps
//! from numbers to numbers of which every earlier state can still be read.
#![tactic(auto)]

mod key;
mod linked;
mod node;
mod own;
mod put;
mod same;
mod tables;
mod versions;

pub use linked::Linked;
pub use same::is_same_action;
pub use tables::{Table, Tables};
pub use versions::Versions;
