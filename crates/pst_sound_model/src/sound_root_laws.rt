//! Laws of the definitions: each function here does nothing, and its contract is a law.
ghost use Rattle.pst_sound_model.specs.SoundRootLaws.{RootsAreConcrete};

/// The root of the model of sources that keep the rules and limits is no abstract action type.
pub fn roots_are_concrete()
    ensures { RootsAreConcrete }
{}
