//! The enum items that paths and expressions name.
#![tactic(auto)]

mod named;
mod named_items;

pub use named::{item_of_path, item_read};
pub use named_items::{items_in, number_of};
