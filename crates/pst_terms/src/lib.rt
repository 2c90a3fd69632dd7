//! What expressions become in a model: terms over slots, and expressions over their numbers:
//! definitions on syntax trees.
#![tactic(auto)]

mod laws;

pub use laws::{
    expressions_are_below, numbering_keeps_values, rewriting_keeps_values, slots_are_tried,
    slots_stand,
};
