//! Laws of scenarios as lists of choices read them. What a list reads whole is a scenario that fits
//! the model, and every legal scenario is read by some list, whatever the seed is. Longer lists go
//! on where a shorter one ends: what was read, known and refused stays, the order of what was
//! placed stays, and bounds only narrow. Each law is the contract of a function that does nothing;
//! a caller that needs a law in a proof calls its function.
#![tactic(auto)]

mod forms;
mod laws;
mod longer_laws;
mod more_known_laws;
mod order_stays_laws;
mod reached_laws;
mod read_onward_laws;
mod readings;

pub use forms::scenarios_are_well_formed;
pub use laws::{activities_fill_their_root, whole_readings_fit};
pub use longer_laws::{dead_stays_dead, parts_are_one, places_go_on, whole_lists_end};
pub use more_known_laws::refusals_go_on;
pub use order_stays_laws::{
    clashes_stay, longer_lists_go_on, orders_stay, parallel_disputes_stay, plans_look_at_no_value,
};
pub use reached_laws::{
    activities_are_read, legal_scenarios_are_read, sources_are_read, values_are_read,
};
pub use read_onward_laws::longer_lists_keep_what_is_known;
pub use readings::{
    whole_readings_are_built, whole_readings_are_linked, whole_readings_are_scenarios,
    whole_readings_have_sources,
};
