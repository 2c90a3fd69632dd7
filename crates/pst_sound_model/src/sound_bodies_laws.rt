//! Laws of the definitions: each function here does nothing, and its contract is a law.
ghost use Rattle.pst_sound_model.specs.SoundBodiesLaws.{BodiesAreSound};

/// In the model of sources that keep the rules, the body of each atomic action is sound: it has at
/// most 64 locals, each with the number of its declaration, its calls have an argument for each
/// parameter, only a function with an answer gives a value, assignments are to locals, and each slot
/// of its expressions has a meaning.
pub fn bodies_are_sound()
    ensures { BodiesAreSound }
{}
