//! The rules of types, as definitions on syntax trees: which of them are broken, and what they
//! stand on, the values of constant expressions and of enum items and the domains of types. Each
//! law is the contract of a function that does nothing.
#![tactic(auto)]

mod constants_laws;
mod laws;
mod typed;

pub use constants_laws::{
    constants_are_tried, domains_are_shortest, expressions_have_one_value, items_have_one_value,
    types_have_one_domain,
};
pub use laws::{
    constants_are_one, more_are_tried, parts_are_tried, right_is_tried, rules_are_tried,
    sources_are_tried, type_breaches_have_one_least,
};
pub use typed::{ConstantValue, Typed};
