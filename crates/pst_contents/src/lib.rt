//! What an action does, made from its own activity or body, or else from its base's.
#![tactic(auto)]

mod contents;
mod found;
mod handles;

pub use contents::content_of;
pub use found::content_bases;
pub use handles::handle_types;
