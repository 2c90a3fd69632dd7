//! The references and claims of each action type with its bases, found without walking each chain
//! of bases again.
#![tactic(auto)]

mod rows;
mod table;

pub use rows::{Inherited, NeedSort};
pub use table::{NeedTable, needs_at};
