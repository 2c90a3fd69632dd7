//! Why bounds hold no solution: on which of the values that variables were given it rests.
#![tactic(auto)]

mod firsts;
mod giving;
mod laws;
mod marks;
mod reasons;
mod settling;
mod step;

pub use laws::{given_spans_refuse_nothing, reasons_hold_before_narrowing};
pub use reasons::Narrowed;
pub use settling::settle;
pub use step::{Cause, Given, Mark, Step};
