//! The spans of plain types and of ranges, by the values of their constants.
#![tactic(auto)]

mod plain;
mod power;
mod ranges;

pub use plain::plain_span;
pub use ranges::range_spans;
