//! Slots seen through a handle, or from an inline constraint.
ghost use Rattle.std.specs.Prelude.{◌≡◌, IfOk, pos};
ghost use Rattle.pst_numbering.specs.Kept.{view_reading, view_own};
ghost use Rattle.pst_terms.specs.Terms.{ANumber, AThing};
ghost use Rattle.pst_terms.specs.Readings.{map_reading};
ghost use Rattle.pst_path_readings.specs.Wrapped.{wrapped};

use pst_numbering::{KeptSlot, OwnSlot, PathReading};

/// What a slot is seen through.
#[derive(Clone, Copy, PartialEq, Eq)]
pub struct Wrap {
    /// Whether it is one of the action round an inline constraint.
    pub outer: bool,
    /// The number of the handle that it is seen through.
    pub handle: Option<u32>,
}

/// What stands for nothing: it can't come where the rules are kept.
pub fn nothing() -> PathReading
    ensures { view_reading result ≡ ANumber (pos 0) }
{
    PathReading::Number(0)
}

impl Wrap {
    /// A slot, so seen.
    pub fn slot(self, own: OwnSlot) -> PathReading
        ensures { view_reading result ≡ map_reading (wrapped self) (AThing (view_own own)) }
    {
        PathReading::Slot(self.kept(own))
    }

    /// A slot, so seen.
    pub fn kept(self, own: OwnSlot) -> KeptSlot
        ensures { result ≡ record { outer = self.outer; handle = self.handle; own = own } }
    {
        KeptSlot {
            outer: self.outer,
            handle: self.handle,
            own,
        }
    }
}
