//! What the uses of the sources break of the rules of types, and the values of constants.
#![tactic(auto)]

mod in_order;
mod judge;
mod judge_uses;
mod uses;

pub use uses::uses_finding;
