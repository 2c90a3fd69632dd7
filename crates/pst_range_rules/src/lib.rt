//! What widths, domains and the ranges of matches break.
#![tactic(auto)]

mod arms;
mod base;
mod empty;
mod facts;
mod laws;
mod meeting;
mod place;
mod plain;
mod reversed;
mod span;
mod types;

pub use arms::arms_finding;
pub use facts::RangeFacts;
pub use laws::{arms_are_judged, plain_types_are_judged, types_are_judged};
pub use plain::plain_finding;
pub use types::type_finding;
