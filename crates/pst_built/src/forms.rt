//! What each call on a scenario asks for.
ghost use Rattle.pst_built.specs.Laws.{ScenariosAreWellFormed, WholeReadingsAreWellFormed, LegalScenariosAreWellFormed};

/// A scenario whose numbers have 31 bits is what each call on a scenario asks for: each node's
/// parent stands before it, a leaf and its action name each other, and links name references that
/// there are. So is one that a list of choices reads whole, and so is a legal one.
pub fn scenarios_are_well_formed()
    ensures scenario { ScenariosAreWellFormed }
    ensures read { WholeReadingsAreWellFormed }
    ensures legal { LegalScenariosAreWellFormed }
{}
