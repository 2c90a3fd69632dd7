//! Laws of the definitions: each function here does nothing, and its contract is a law.
ghost use Rattle.pst_terms.specs.Laws.{ExpressionsAreBelow, NumberingKeepsValues, RewritingKeepsValues, SlotsStand};
ghost use Rattle.pst_terms.specs.Tried.{SlotsAreTried};

/// An expression has the value of its term.
pub fn rewriting_keeps_values()
    ensures { RewritingKeepsValues }
{}

/// Where the slots of a term stand at their numbers, the expression by these numbers has the value
/// of the term.
pub fn numbering_keeps_values()
    ensures { NumberingKeepsValues }
{}

/// Among the slots of a term whose arrays don't overlap each slot stands at its number, and the
/// elements of each array stand together.
pub fn slots_stand()
    ensures { SlotsStand }
{}

/// The variables of an expression are below its slots, and each slot stands in its term.
pub fn expressions_are_below()
    ensures { ExpressionsAreBelow }
{}

/// The slots of small terms, and the expressions by their numbers.
pub fn slots_are_tried()
    ensures { SlotsAreTried }
{}
