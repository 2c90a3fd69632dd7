//! Reading the texts of sources: they are cut into tokens one after another, with one table of names,
//! and then parsed.
#![tactic(auto)]

mod lexing;
mod parsing;

pub use lexing::{MOST_TOKENS, lex_texts};
pub use parsing::{UnitsEnd, parse_units};
pub use pst_parser::laws::at_most_one_unit;
