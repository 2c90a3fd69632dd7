//! What every part of the compiler and the executive stands on: places in the sources, the table
//! of names, and the answer for want of memory.
#![tactic(auto)]

mod items;
mod memory;
mod position;
mod table;

pub use items::Items;
pub use memory::NoMemory;
pub use position::{Place, places_are_ordered};
pub use table::{NameId, Names};
