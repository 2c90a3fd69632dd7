//! Laws of the grammar: each function here does nothing, and its contract is a law.
ghost use Rattle.pst_ast.specs.Laws.{AtMostOneTree};
ghost use Rattle.pst_ast.specs.Rule.{TheConstraint, TheExpr};

/// At most one proper expression spells a list of tokens.
#[tactic(auto, using(crate::proofs::Answering::one_expr))]
pub fn at_most_one_expression()
    ensures { AtMostOneTree TheExpr }
{}

/// At most one proper set of constraints spells a list of tokens.
#[tactic(auto, using(crate::proofs::ConstraintAnswering::one_constraint))]
pub fn at_most_one_constraint()
    ensures { AtMostOneTree TheConstraint }
{}
