//! What is answered of the memory that a scenario's actions ask for: the addresses of all, or the
//! first action without one.
#![tactic(auto)]

mod answer;
mod laws;
mod lines;
mod show;

pub use answer::{PlaceAnswer, ShownPlaces};
pub use laws::place_answers_are_one;
pub use pst_addr::Space;
pub use show::show_places;
