//! The model of sources that keep the rules and the limits is sound. Names of sources are declared
//! at places of their own, and stand for what is declared there; from this it follows that object
//! types, action types with their needs, pools, functions and expressions are sound, so are the
//! constraints, steps, activities, binds and bodies and what pools serve, and the root isn't
//! abstract. Each law is the contract of a function that does nothing; a caller that needs a law in
//! a proof calls its function.
#![tactic(auto)]

mod laws;
mod sound_activities_laws;
mod sound_bodies_laws;
mod sound_expressions_laws;
mod sound_names_laws;
mod sound_places_laws;
mod sound_root_laws;
mod sound_served_laws;
mod sound_steady_laws;
mod sound_steps_laws;
mod sound_ties_laws;
mod sound_types_laws;

pub use laws::{models_are_sound, models_of_texts_are_sound};
pub use sound_activities_laws::{
    arms_are_apart, handles_are_sound, joins_are_sound, weights_are_sound,
};
pub use sound_bodies_laws::bodies_are_sound;
pub use sound_expressions_laws::{action_constraints_are_named, object_constraints_are_sound};
pub use sound_names_laws::{members_are_found, names_are_found};
pub use sound_places_laws::{names_have_own_places, names_stand_apart, tokens_of_units_rise};
pub use sound_root_laws::roots_are_concrete;
pub use sound_served_laws::serves_are_sound;
pub use sound_steady_laws::action_constraints_are_sound;
pub use sound_steps_laws::steps_are_sound;
pub use sound_ties_laws::ties_are_sound;
pub use sound_types_laws::{
    fields_are_few, fields_are_sound, functions_are_sound, needs_are_few, needs_are_served_whole,
    needs_are_sound, objects_are_sound, pools_are_sound,
};
