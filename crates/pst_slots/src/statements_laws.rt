//! Laws of statements and constraints.
ghost use Rattle.pst_slots.specs.StatementsLaws.{StatementsAreFound, ConstraintsAreListed, HoldingIsListed};

/// A node of a well formed scenario stands for a statement exactly where that is the one that is
/// found from the node up, with the node whose activity has it and the turns round it. So it stands
/// for one statement at most.
pub fn statements_are_found()
    ensures { StatementsAreFound }
{}

/// A well formed scenario has a constraint exactly where it is in the list, with what its slots
/// stand for. So every constraint holds exactly where each of the list does.
pub fn constraints_are_listed()
    ensures listed { ConstraintsAreListed }
    ensures holding { HoldingIsListed }
{}
