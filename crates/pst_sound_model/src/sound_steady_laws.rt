//! Laws of the definitions: each function here does nothing, and its contract is a law.
ghost use Rattle.pst_sound_model.specs.SoundSteadyLaws.{ActionConstraintsAreSound};

/// In the model of sources that keep the rules, the constraints of each action type, with those of
/// its bases, are sound, and each handle that they name is traversed exactly once.
pub fn action_constraints_are_sound()
    ensures { ActionConstraintsAreSound }
{}
