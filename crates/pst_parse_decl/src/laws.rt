//! Laws of the grammar: each function here does nothing, and its contract is a law.
ghost use Rattle.pst_ast.specs.Laws.{AtMostOneTree};
ghost use Rattle.pst_ast.specs.Rule.{TheItem};
ghost use Rattle.pst_parse_decl.specs.Laws.{OneTreeOfDeclarations};

/// At most one proper tree of each of these rules spells a list of tokens: fields, references,
/// claims, members, enums, functions, pools, binds of pools and objects.
#[tactic(auto, using(crate::proofs::Unique::one_of_each))]
pub fn at_most_one_declaration()
    ensures { OneTreeOfDeclarations }
{}

/// At most one proper part of a unit spells a list of tokens.
#[tactic(auto, using(crate::proofs::Items::one_item_of_all))]
pub fn at_most_one_item()
    ensures { AtMostOneTree TheItem }
{}
