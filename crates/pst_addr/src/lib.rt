//! Addresses for the memory that actions ask for.
//!
//! Each ask in turn gets the least aligned address at which its bytes are clear of those of the
//! earlier asks that meet it: of the same action, or of one that has neither an order with its action
//! nor a conflict. Two actions that run at one moment meet.
#![tactic(auto)]

mod ask;
mod asks;
mod columns;
mod first_fit;
mod laws;
mod multiple;
mod needed;
mod placing;

pub use ask::{Ask, PlaceEnd, Space};
pub use asks::asks_of;
pub use laws::{asks_are_of_plan, placed_are_apart, places_are_one, running_actions_meet};
pub use placing::place;
