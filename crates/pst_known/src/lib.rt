//! What is known of the slots of a scenario's constraints, of a scenario that is read or is still being
//! read.
#![tactic(auto)]

mod claims;
mod flows;
mod known;
mod nodes;
mod scene;
mod slots;
mod spans;
mod ways;

pub use known::Known;
pub use nodes::{inline_slot, node_slot};
pub use scene::Scene;
pub use slots::{act_slot, first_object_slot, output_slot, resource_slot};
pub use ways::node_behind;
