//! The values behind the sources of a list of choices: one more is given with each choice and taken back with it, and
//! they tell why a list can't be gone on with, and which options of the next place needn't be tried.
#![tactic(auto)]

mod behind;
mod copies;
mod fields;
mod skipping;

pub use behind::{Behind, back_at, choose_at, refusal_at};
pub use copies::copy_scenario;
pub use pst_read_domains::{nodes_stand_for_pieces, refused_lists_are_barren};
pub use pst_search_places::{
    barren_lists_conflict, of_places, place_facts_hold, places_rest_on_earlier_ones,
    places_rest_on_the_sources,
};
pub use skipping::skip_at;
