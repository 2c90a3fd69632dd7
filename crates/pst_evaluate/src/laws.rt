//! Laws of the definitions: each function here does nothing, and its contract is a law.
ghost use Rattle.pst_evaluate.specs.Laws.{ConstantsAreFound};

/// By the values that items have, an expression has just the value that it has as a constant.
pub fn constants_are_found()
    ensures { ConstantsAreFound }
{}
