//! Spans of operands: where the value of an operator is to lie in a span, the spans in which its operands then lie.
//!
//! No operands are lost for which the value lies there. Sums, products and quotients are exact where the value
//! overflows: such operands have no value, so none is wanted.
#![tactic(auto)]

mod bits;
mod comparison;
mod cuts;
mod exact;
mod operands;
mod product;
mod quotient;
mod remainder;
mod shifts;
mod sums;
mod unary;

pub use operands::{Operands, operand_of, operands_of};
