//! What the constraints of the sources mean, in the language's own words, and in which order parts of a
//! model and breaches of the last rules stand.
#![tactic(auto)]

mod laws;

pub use laws::{
    declarations_mean, orders_are_tried, pool_rules_come_first, ranges_mean, sets_mean,
};
