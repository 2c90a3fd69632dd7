//! The plan of a scenario: its groups, its order and its conflicts, or why it has none.
#![tactic(auto)]

mod apart;
mod cause;
mod groups;
mod links;
mod must;
mod named;
mod planning;
mod refusals;
mod replaced;
mod rows;
mod runs;
mod usage;
mod uses;
mod whole;
mod writes;

pub use groups::groups_of;
pub use planning::{PlanEnd, plan_of};
pub use whole::plan;
