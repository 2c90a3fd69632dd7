//! Expressions over whole numbers of 64 bits, their values, and domains of values.
//!
//! An expression has a value or none: it has none where a part that is needed has none, and where an
//! operation of `pst_num` gives none. A domain is a set of values written as spans.
#![tactic(auto)]

mod copy;
mod environment;
mod evaluation;
mod laws;
mod left;
mod operators;
mod ranges;
mod tree;

pub use environment::Env;
pub use evaluation::eval;
pub use laws::{domains_list_values, values_are_in_range, worked_values};
pub use operators::{binary, decided_by_left, unary};
pub use ranges::{Domain, Span};
pub use tree::{BinaryOp, Expr, UnaryOp};
