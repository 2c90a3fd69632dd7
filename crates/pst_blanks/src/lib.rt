//! What choices behind the sources fill: the instances that claims claim, and the values of first
//! objects, of actions, of what they write and of what they claim.
//!
//! Nothing here knows of choices: a walk over the values asks which blanks there are, how many
//! options each has, and fills them one after another.
#![tactic(auto)]

mod acts;
mod beginning;
mod blank;
mod counting;
mod filling;
mod listing;
mod lookup;
mod parts;
mod pools;

pub use beginning::begin;
pub use blank::{Blank, Place};
pub use counting::{domain, options, value_of};
pub use filling::{clear, fill};
