//! Why a body didn't end.
ghost use Rattle.std.specs.Prelude.{◌≡◌};
ghost use Rattle.pst_body.specs.declared.ending.BodyEnd.TheVariants.{NoMemory as OutOfMemory};

use pst_base::NoMemory;
use std::alloc::AllocError;

/// Why a body didn't end.
#[derive(Clone, Copy, Debug, PartialEq, Eq)]
pub enum BodyEnd {
    /// The lane failed, and its count of faults has risen, or stands at its last value.
    Fault {
        /// The number of the call that failed among the calls of this body, counted from 1.
        call: u32,
    },
    /// The body trapped.
    Trap {
        /// 1 where an expression has no value or a count of turns is negative, 2 where a value is outside the range of a
        /// local, a parameter or a function's answer, 3 at the 1,001st statement or turn.
        kind: u8,
    },
    /// Memory ran out.
    NoMemory,
}

impl From<NoMemory> for BodyEnd {
    ghost from_gives = { λ _ end. end ≡ OutOfMemory };

    fn from(_error: NoMemory) -> BodyEnd {
        BodyEnd::NoMemory
    }
}

impl From<AllocError> for BodyEnd {
    ghost from_gives = { λ _ end. end ≡ OutOfMemory };

    fn from(_error: AllocError) -> BodyEnd {
        BodyEnd::NoMemory
    }
}
