//! The component instances of the sources, and what actions have and do with their bases, in order
//! and by number.
#![tactic(auto)]

mod bases;
mod inherited_laws;
mod key;
mod lasts;
mod laws;
mod rows;
mod sites;
mod sources;
mod tree;
mod walk;

pub use bases::with_bases;
pub use inherited_laws::{bases_are_tried, members_are_found};
pub use key::{PlaceKey, place_key};
pub use laws::{
    instances_are_in_preorder, instances_are_one, instances_are_tried, instances_exist,
};
pub use rows::{Member, Rows};
pub use sites::{ActionSite, ContentSort, Sites};
pub use sources::{instances, instances_by};
pub use tree::{Tree, TreeEnd};
