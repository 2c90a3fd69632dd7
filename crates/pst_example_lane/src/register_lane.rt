ghost use Rattle.std.specs.Prelude.{◌≡◌, None};

use pst_target::{CallEnd, Target};
use std::marker::Model;

/// The number of the function that writes a register.
const WRITE: u32 = 0;

/// The number of the function that reads a register.
const READ: u32 = 1;

/// A lane over 256 registers, as the window of a device would be.
///
/// Contracts see the count of failed calls alone: the lane keeps no list of its calls.
#[derive(Drop)]
pub struct RegisterLane {
    registers: [i64; 256],
    faults: u64,
}

impl Model for RegisterLane {
    ghost use Rattle.std.specs.Prelude.{ℕ};

    ghost Value = { ℕ };

    ghost view = { λ lane. lane.faults };
}

impl RegisterLane {
    /// A lane whose registers are 0.
    pub fn new() -> RegisterLane
        ensures { result ≡ 0 }
    {
        RegisterLane {
            registers: [0; 256],
            faults: 0,
        }
    }

    // The answer of a function, or none where there is no such function or register.
    fn answer(&mut self, function: u32, arguments: &[i64]) -> Option<i64>
        ensures { self.new ≡ self.old }
    {
        let index = usize::try_from(*arguments.first()?).ok()?;
        let register = self.registers.get_mut(index)?;
        match function {
            WRITE => {
                *register = *arguments.get(1)?;
                Some(0)
            }
            READ => Some(*register),
            _ => None,
        }
    }
}

impl Target for RegisterLane {
    ghost calls = { λ _. None };

    ghost faults = { λ count. count };

    fn call(&mut self, function: u32, arguments: &[i64]) -> Result<i64, CallEnd> {
        match self.answer(function, arguments) {
            Some(answer) => Ok(answer),
            None => {
                self.faults = self.faults.saturating_add(1);
                Err(CallEnd::Failed)
            }
        }
    }
}
