//! The references of actions that have no source yet, and the sources that each may have.
//!
//! An input wants a supplier, a state output its previous writer, and a stream output its consumer.
//! Nothing here knows of choices: a walk over the sources asks which needs there are and what they
//! may be linked to.
#![tactic(auto)]

mod acts;
mod among;
mod beyond;
mod flows;
mod links;
mod lookup;
mod new_ends;
mod options;
mod spot;
mod turns;

pub use acts::{leaf_count, open_leaves};
pub use beyond::{NewSources, serves_in_order};
pub use links::{Change, Ends, Relinked, supply, take_back};
pub use new_ends::NewEnds;
pub use options::sources;
pub use spot::{Source, Spot};
pub use turns::{next_need, next_wanting};
