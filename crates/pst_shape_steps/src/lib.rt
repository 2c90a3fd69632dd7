//! Steps of the walk through an activity: what is still to be read, and reading on to the next place.
#![tactic(auto)]

mod pending;
mod step;

pub use pending::{At, Chosen, Fields, Parts, Spot, Stack, Turns};
pub use step::{
    chosen_options, enter_action, enter_chosen, go_below, is_closed, options, settle, spot_options,
};
