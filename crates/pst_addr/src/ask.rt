//! Claims of addresses.
ghost use Rattle.std.specs.Prelude.{◌≡◌};
ghost use Rattle.pst_addr.specs.declared.ask.PlaceEnd.TheVariants as end;

use pst_base::NoMemory;

/// An action asks for bytes.
#[derive(Clone, Copy, Debug, PartialEq, Eq)]
pub struct Ask {
    /// The action.
    pub action: u32,
    /// How many bytes.
    pub size: u64,
    /// Their address is a multiple of this number.
    pub align: u64,
}

/// The addresses that there are: so many from a first one on.
#[derive(Clone, Copy, Debug, PartialEq, Eq)]
pub struct Space {
    /// The first.
    pub base: u64,
    /// How many.
    pub size: u64,
}

/// The bytes of an action whose ask is placed.
#[derive(Clone, Copy, Debug, PartialEq, Eq)]
pub struct Range {
    /// The address of the first.
    pub low: u64,
    /// The address behind the last.
    pub high: u64,
    /// The action.
    pub action: u32,
}

/// Why asks aren't placed.
#[derive(Clone, Copy, Debug, PartialEq, Eq)]
pub enum PlaceEnd {
    /// The ask of that number has no place, and those before it have one.
    NoRoom {
        /// The number of the ask, counted from 0.
        ask: u32,
    },
    /// Memory ran out, which says nothing of the asks.
    NoMemory,
}

impl From<NoMemory> for PlaceEnd {
    ghost use Rattle.std.specs.Prelude.{◌≡◌};

    ghost from_gives = { λ _ e. e ≡ end.NoMemory };

    fn from(_error: NoMemory) -> PlaceEnd {
        PlaceEnd::NoMemory
    }
}
