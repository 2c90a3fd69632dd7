//! Lists of places, in which the number of a place is found without a walk through the list.
#![tactic(auto)]

mod key;
mod list;

pub use list::PlaceList;
