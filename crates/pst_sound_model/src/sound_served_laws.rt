//! Laws of the definitions: each function here does nothing, and its contract is a law.
ghost use Rattle.pst_sound_model.specs.SoundServedLaws.{ServesAreSound};

/// In the model of sources that keep the rules, each pool is of the object type of the references
/// and claims that it serves.
pub fn serves_are_sound()
    ensures { ServesAreSound }
{}
