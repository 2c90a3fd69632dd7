//! Laws of the definitions: each function here does nothing, and its contract is a law.
ghost use Rattle.pst_sound_model.specs.SoundExpressionsLaws.{ActionConstraintsAreNamed, ObjectConstraintsAreSound};

/// In the model of sources that keep the rules of types, the constraints of each object type are
/// sound.
pub fn object_constraints_are_sound()
    ensures { ObjectConstraintsAreSound }
{}

/// In the model of sources that keep the rules, the constraints of each action type, with those of
/// its bases, are sound but for one point: that the handles that they name are traversed once.
pub fn action_constraints_are_named()
    ensures { ActionConstraintsAreNamed }
{}
