//! Needs that no action serves where no further one may be inferred.
#![tactic(auto)]

mod laws;
mod needs;

pub use laws::unserved_needs_refuse_lists;
pub use needs::has_unserved_need;
