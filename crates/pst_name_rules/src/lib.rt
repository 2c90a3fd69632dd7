//! What single uses of names, and declarations, break of the rules of names.
#![tactic(auto)]

mod declared;
mod ends;
mod least;
mod targets;
mod types;

pub use declared::{has_root, own_finding};
pub use ends::{assigned_finding, end_finding, end_named, handle_finding};
pub use least::earlier;
pub use targets::{binds_finding, instance_within, pool_in, target_of, targets_finding};
pub use types::{
    base_finding, calls_finding, enum_by, item_by, item_finding, type_finding, unless,
};
