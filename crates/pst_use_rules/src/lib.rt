//! What single uses break of the rules of types.
#![tactic(auto)]

mod binds;
mod calls;
mod condition;
mod counts;
mod expression;
mod facts;
mod inner;
mod laws;
mod performed;

pub use binds::{assigned_finding, target_finding, ties_finding};
pub use calls::call_finding;
pub use counts::{branches_finding, count_of_branches, unique_finding};
pub use expression::{count_finding, expr_place, expression_finding};
pub use facts::Facts;
pub use laws::{
    assignments_are_judged, binds_are_judged, calls_are_judged, counts_are_judged,
    expressions_are_judged,
};
pub use performed::performed_finding;
