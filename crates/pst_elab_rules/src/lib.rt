//! The model of the sources, and what elaboration answers: definitions on syntax trees.
#![tactic(auto)]

mod end;
mod laws;

pub use end::ElabEnd;
pub use laws::{
    answers_are_apart, first_breaches_are_one, models_are_in_order, models_are_one,
    rewritings_mean, rows_are_tried, statements_are_tried,
};
