//! Whether pools have enough instances for the claims of a scenario, before any claim has its instance.
//!
//! Of some claims on one pool of which each two are rivals, each needs an instance of its own. So many are counted
//! for each node of the activity: an action's own locks, and one more where it shares; of a `parallel` the sum over its
//! branches; of any other node what the greatest child needs. Actions that start together need the sum of theirs.
#![tactic(auto)]

mod counting;
mod laws;
mod needs;
mod nodes;
mod slots;

pub use counting::has_too_few_instances;
pub use laws::too_many_claims_refuse_lists;
