//! Which handles the activity of each action traverses exactly once, and not within a `select`,
//! `repeat`, `if` or `match`.
#![tactic(auto)]

mod listing;
mod once;
mod own;
mod tally;

pub use listing::{Traversed, list_traversals};
pub use once::is_steady;
pub use own::{has_body, own_activity};
pub use tally::{TallyKey, tallies};
