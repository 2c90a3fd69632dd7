//! The search for the first legal scenario, over any walker through lists of choices.
#![tactic(auto)]

mod conflict;
mod frame;
mod level;
mod levels;
mod walker;

pub use conflict::Conflict;
pub use level::{Found, search_level};
pub use levels::{Outcome, search_levels};
pub use walker::{Judged, Look, Skipped, Walker};
