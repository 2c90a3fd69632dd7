//! Programs of lanes that need no executive, and the machine that runs them: types, definitions and
//! laws.
//!
//! A lane runs its program from the first instruction to the last. What its actions need of other
//! lanes it awaits, and what other lanes await it signals. So the lanes need nobody who starts
//! actions: over every order of their moves the starts and ends begin a whole legal trace.
#![tactic(auto)]

mod laws;
mod program;

pub use laws::{machine_is_safe, programs_are_safe, rows_are_tried};
pub use program::{Instruction, Move, Program};
