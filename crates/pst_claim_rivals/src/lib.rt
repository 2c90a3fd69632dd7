//! Claims that can't claim one instance.
//!
//! Two claims on one pool, of which at least one is a lock, are rivals where they are of one action, of two
//! actions that start together, or of two actions in different branches of one `parallel`. That is known as
//! soon as the activity and the sources are read, before any claim has its instance.
#![tactic(auto)]

mod claims;
mod laws;
mod rivals;

pub use claims::{OpenClaim, open_claims};
pub use laws::{claims_are_listed_once, claims_are_theirs, rivals_differ};
pub use rivals::are_rivals;
