//! Laws between definitions that say one thing in two ways: by the rules of the language, and by
//! the functions on syntax trees of which the model of the sources is made.
#![tactic(auto)]

mod base_laws;
mod content_laws;
mod value_laws;

pub use base_laws::{bases_are_listed, members_are_listed};
pub use content_laws::{activities_are_found, compounds_are_found, contents_are_tried};
pub use value_laws::{
    constants_are_valued, elaborated_are_valued, item_values_are_found, item_values_are_settled,
    ranges_are_found, spans_are_found, values_are_tried,
};
