//! The choices of the list at hand.
ghost use Rattle.std.specs.Prelude.{◌≡◌};

use crate::conflict::Conflict;

/// A choice of the list at hand: how many options its place has, and on which earlier places it
/// rests that those passed aren't to be taken.
#[derive(Debug, Drop)]
pub(crate) struct Frame {
    pub(crate) digit: u64,
    pub(crate) count: u64,
    pub(crate) reasons: Conflict,
}
