//! The lexer: a text that comes in pieces is cut into tokens.
//!
//! What the tokens of a text are, and which fault a text has, is defined in `pst_token` of the whole
//! text. A [`Lexer`] takes the text in any pieces and gives the tokens, or the fault, of that text.
#![tactic(auto)]

mod comments;
mod fault;
mod feeding;
mod find;
pub mod laws;
mod marks;
mod place;
mod scan;
mod words;

pub use fault::LexFault;
pub use feeding::Lexer;
