//! Why a text has no tokens.
use pst_base::{NoMemory, Place};
use std::alloc::{AllocError, AllocFailed};

/// Why a text has no tokens. Of two faults the one at the earlier place counts.
#[derive(Clone, Copy, Debug, PartialEq, Eq)]
pub enum LexFault {
    /// No blank, comment or token begins at this place.
    Bad(Place),
    /// A number above 2^63-1 begins at this place.
    Wide(Place),
    /// More tokens stand before any fault than there is room for, `End` not counted.
    Many,
    /// Memory ran out.
    NoMemory,
}

impl From<NoMemory> for LexFault {
    ghost use Rattle.std.specs.Prelude.{◌≡◌};
    ghost use Rattle.pst_lexer.specs.declared.fault.LexFault.TheVariants as fault;

    ghost from_gives = { λ _ e. e ≡ fault.NoMemory };

    fn from(_error: NoMemory) -> LexFault {
        LexFault::NoMemory
    }
}

impl From<AllocError> for LexFault {
    ghost use Rattle.std.specs.Prelude.{◌≡◌};
    ghost use Rattle.pst_lexer.specs.declared.fault.LexFault.TheVariants as fault;

    ghost from_gives = { λ _ e. e ≡ fault.NoMemory };

    fn from(_error: AllocError) -> LexFault {
        LexFault::NoMemory
    }
}

impl<T: Drop> From<AllocFailed<T>> for LexFault {
    ghost use Rattle.std.specs.Prelude.{◌≡◌};
    ghost use Rattle.pst_lexer.specs.declared.fault.LexFault.TheVariants as fault;

    ghost from_gives = { λ _ e. e ≡ fault.NoMemory };

    fn from(_error: AllocFailed<T>) -> LexFault {
        LexFault::NoMemory
    }
}
