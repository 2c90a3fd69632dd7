//! Laws of the definitions: each function here does nothing, and its contract is a law.
ghost use Rattle.pst_sound_model.specs.SoundStepsLaws.{StepsAreSound};

/// In the model of sources that keep the rules, each step of each activity is sound.
pub fn steps_are_sound()
    ensures { StepsAreSound }
{}
