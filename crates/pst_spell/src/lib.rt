//! The tokens that a syntax tree spells.
#![tactic(auto)]

mod spell_declaration;
mod spelling;

pub use spelling::spell;
