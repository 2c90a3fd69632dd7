//! The lanes that actions run on: what a call of a lane promises, lanes in memory, and the gate that is passed before a
//! body runs.
#![tactic(auto)]

mod call;
mod gate;
mod script_target;
mod sure_target;
mod target;

pub use call::{Call, CallArguments};
pub use gate::{Gate, OpenGate};
pub use script_target::ScriptTarget;
pub use sure_target::SureTarget;
pub use target::{CallEnd, Target};
