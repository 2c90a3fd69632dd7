//! The law of bodies, the contract of a function that does nothing.
ghost use Rattle.pst_body_ends.specs.Ends.{BodiesAreShort};

/// A body makes at most 1,000 calls, fewer where it wants one more, and traps by one of three kinds.
pub fn bodies_are_short()
    ensures { BodiesAreShort }
{}
