//! The tokens that the parts of a syntax tree spell: single tokens, types, expressions, constraints
//! and bodies. Each function adds to a list the tokens that a part spells.
#![tactic(auto)]

pub mod marks;
pub mod spell_body;
pub mod spell_constraint;
pub mod spell_expression;
pub mod spell_shared;
