//! The actions, functions, fields and enums of the sources, in the order of their text.
#![tactic(auto)]

mod actions;
mod enums;
mod fields;
mod functions;
mod site;

pub use actions::list_actions;
pub use enums::list_enums;
pub use fields::list_fields;
pub use functions::list_functions;
pub use site::{EnumSite, FieldSite};
