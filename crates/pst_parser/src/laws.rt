//! Laws of the grammar: each function here does nothing, and its contract is a law.
ghost use Rattle.pst_ast.specs.Laws.{AtMostOneTree};
ghost use Rattle.pst_ast.specs.Rule.{TheUnit};

/// At most one proper unit spells a list of tokens.
#[tactic(auto, using(crate::proofs::UnitLaws::one_unit))]
pub fn at_most_one_unit()
    ensures { AtMostOneTree TheUnit }
{}
