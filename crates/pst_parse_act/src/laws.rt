//! Laws of the grammar: each function here does nothing, and its contract is a law.
ghost use Rattle.pst_ast.specs.Laws.{AtMostOneTree};
ghost use Rattle.pst_ast.specs.Rule.{TheActivity};

/// At most one proper activity spells a list of tokens.
pub fn at_most_one_activity()
    ensures { AtMostOneTree TheActivity }
{}
