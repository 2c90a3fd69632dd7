//! Which handles each action traverses exactly once, with what it takes from its base.
#![tactic(auto)]

mod below;
mod lineage;
mod number;
mod order;
mod ranges;
mod reach;
mod runs;
mod seeds;

pub use below::{Below, none_unsteady};
pub use lineage::{Lineage, has_unsteady, is_steady_in};
pub use number::{base_number, bases_of, number_of};
pub use order::order_of;
pub use ranges::{Range, are_ranged, ranges_of, slots_of};
pub use reach::{Seed, reached};
pub use runs::{RunKey, runs_of};
pub use seeds::seeds_of;
