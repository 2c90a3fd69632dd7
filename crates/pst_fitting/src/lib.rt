//! The first value of a variable, in the order of a seed, that narrowing doesn't refuse, and on which of the spans that
//! other variables were given it rests that those before it are passed.
#![tactic(auto)]

mod fitting;
mod places;
mod portions;
mod trial;

pub use fitting::{Fitting, first_fitting};
