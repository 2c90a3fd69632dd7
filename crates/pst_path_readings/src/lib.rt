//! What the paths of expressions stand for in a model.
#![tactic(auto)]

mod behind;
mod fields;
mod named;
mod own;
mod read;
mod setting;
mod wrap;

pub use read::Reader;
pub use setting::{Setting, Turn};
