//! When a scenario that a list of choices reads whole is legal: one that fits the model fits it in
//! shape, its inferred actions are numbered as the choices made them, and it is legal where its
//! constraints hold and it has a plan. Each law is the contract of a function that does nothing; a
//! caller that needs a law in a proof calls its function.
#![tactic(auto)]

mod laws;
mod read_numbers_laws;
mod read_shape_laws;

pub use laws::{legal_is_unrefused, planned_readings_are_legal, writers_come_from_first};
pub use read_numbers_laws::whole_readings_are_numbered;
pub use read_shape_laws::fitting_scenarios_have_shape;
