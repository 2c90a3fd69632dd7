//! Laws of the definitions: each function here does nothing, and its contract is a law.
ghost use Rattle.pst_tree.specs.InheritedLaws.{MembersAreFound};
ghost use Rattle.pst_tree.specs.InheritedTried.{BasesAreTried};

/// Where a declared type has a list of members by the rules of types, it is the one that is found
/// here.
pub fn members_are_found()
    ensures { MembersAreFound }
{}

/// What derived actions have and do, in a small source.
pub fn bases_are_tried()
    ensures { BasesAreTried }
{}
