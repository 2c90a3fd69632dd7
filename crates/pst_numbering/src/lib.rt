//! Expressions of a model made from those of the sources: over the numbers of their slots.
#![tactic(auto)]

mod operators;
mod reading;
mod same;
mod slots;
mod table;
mod walk;
mod whole;

pub use reading::{KeptSlot, OwnSlot, PathReader, PathReading};
pub use slots::{number_of, slots_of};
pub use whole::add_expr;
