//! Tokens: their kinds, their spellings, and what the tokens of a text are.
#![tactic(auto)]

mod kind;
pub mod laws;
mod lookup;
mod token;

pub use kind::{Kind, spelling};
pub use lookup::kind_of;
pub use token::Token;
