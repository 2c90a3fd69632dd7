//! Laws of the definitions: each function here does nothing, and its contract is a law.
ghost use Rattle.pst_sound_model.specs.SoundNamesLaws.{MembersAreFound, NamesAreFound};

/// In sources that keep the rules of names, each declaration is what its name stands for in its
/// scope.
pub fn names_are_found()
    ensures { NamesAreFound }
{}

/// In sources that keep the rules of names, each member of a type, its bases' among them, is what
/// its name stands for there.
pub fn members_are_found()
    ensures { MembersAreFound }
{}
