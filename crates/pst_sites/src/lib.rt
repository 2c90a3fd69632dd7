//! What the sources say of an action, a function, a field or an enum, by the place of its name.
#![tactic(auto)]

mod find;
mod sites;

pub use pst_site_lists::{EnumSite, FieldSite};
pub use sites::Sites;
