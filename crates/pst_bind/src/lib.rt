//! The pools of the component instances, and which of them serves each reference and claim.
#![tactic(auto)]

mod actions;
mod choices;
mod default_choices;
mod judging;
mod laws;
mod pool_map;
mod serving;
mod sources;
mod wants;

pub use actions::judge;
pub use choices::{Choice, choice_of};
pub use default_choices::{DefaultChoices, TypeChoices, are_behind};
pub use judging::{Binds, Judged};
pub use laws::{
    needs_are_served, pool_breaches_have_one_least, pool_maps_are_one, pools_are_tried,
};
pub use pool_map::{PoolMap, PoolPlace, Served};
pub use pst_bound_pools::component_of;
pub use sources::{pools, pools_by};
pub use wants::Wanted;
