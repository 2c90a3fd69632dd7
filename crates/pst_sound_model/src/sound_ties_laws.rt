//! Laws of the definitions: each function here does nothing, and its contract is a law.
ghost use Rattle.pst_sound_model.specs.SoundTiesLaws.{TiesAreSound};

/// In the model of sources that keep the rules, each bind of each activity is sound, and no two of
/// them bind one input, or one output of a stream.
pub fn ties_are_sound()
    ensures { TiesAreSound }
{}
