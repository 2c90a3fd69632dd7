//! Laws of the grammar: each function here does nothing, and its contract is a law.
ghost use Rattle.pst_ast.specs.Laws.{AtMostOneTree};
ghost use Rattle.pst_ast.specs.Rule.{TheBody};

/// At most one proper body spells a list of tokens.
#[tactic(auto, using(crate::proofs::BodyAnswering::one_body))]
pub fn at_most_one_body()
    ensures { AtMostOneTree TheBody }
{}
