//! The constraints of a model made from those of the sources.
#![tactic(auto)]

mod made;
mod pairs;
mod premises;
mod sets;
mod turns;

pub use made::expression_of;
pub use pst_path_readings::Setting;
pub use sets::{add_declared, add_inline};
pub use turns::{pop_turn, push_turn, turns_of};
