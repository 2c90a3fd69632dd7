//! Conflicts by places: a choice behind the sources stands for its own place alone, so that a conflict may
//! name few of them.
//!
//! Each law is the contract of a function that does nothing. A caller that needs a law in a proof
//! calls its function.
#![tactic(auto)]

mod laws;
mod places;

pub use laws::{
    barren_lists_conflict, few_places_conflict, few_places_exclude, place_facts_hold,
    places_rest_on_earlier_ones, places_rest_on_the_sources,
};
pub use places::of_places;
