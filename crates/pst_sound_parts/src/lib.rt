//! Which parts of a model are sound: expressions where they stand, bodies, ranges, handles, component
//! instances and served pools.
#![tactic(auto)]

mod bodies;
mod expression;
mod preorder;
mod ranges;
mod repeats;
mod served;
mod site;
mod slots;
mod traversals;

pub use bodies::is_sound_body;
pub use preorder::is_preorder;
pub use ranges::{are_arms_apart, is_join};
pub use repeats::Repeats;
pub use served::{is_in_order, is_served_whole, is_sound_serve, pool_in};
pub use site::{
    ActionSite, ConditionSite, InlineSite, ObjectSite, Site, are_sound_there, is_sound_there,
};
pub use slots::{handle_type, is_of_kind};
pub use traversals::is_steady;
