//! A model written out is sound, and parts that break one point each aren't, as the contract of a
//! function that does nothing.
ghost use Rattle.pst_model.specs.Trials.{AreTrials};

/// A model with one action in the root is sound; parts with a wrong number, a handle that isn't
/// traversed exactly once, ranges that meet and the like aren't.
pub fn trials_of_sound_models()
    ensures { AreTrials }
{}
