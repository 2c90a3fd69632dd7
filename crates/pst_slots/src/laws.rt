//! Laws of slots.
ghost use Rattle.pst_slots.specs.Laws.{SlotsAreDecided, SlotsArePlaced};

/// In a scenario of a sound model that fits and whose needs have their sources, each slot of each
/// constraint has a value, or stands for nothing that ever has one: none is open, and none isn't read.
pub fn slots_are_decided()
    ensures { SlotsAreDecided }
{}

/// In a scenario of a sound model of which the activity and the sources are read, each slot of each
/// constraint has a value, stands for nothing that ever has one, or is an open value whose place is
/// known: none isn't read.
pub fn slots_are_placed()
    ensures { SlotsArePlaced }
{}
