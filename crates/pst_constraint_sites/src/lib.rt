//! The constraints of a scenario by where they stand, and what their slots stand for there, whatever
//! is chosen behind the sources: a value, what stands in a blank, or nothing.
#![tactic(auto)]

mod collecting;
mod flows;
mod laws;
mod listing;
mod meaning;
mod meanings;
mod parts;
mod site;

pub use collecting::groups_of;
pub use laws::{constraints_are_grouped, groups_have_constraints, senses_tell};
pub use meaning::Meaning;
pub use meanings::meaning_at;
pub use site::{Group, Site};
