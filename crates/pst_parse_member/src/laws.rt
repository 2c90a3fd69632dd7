//! Laws of the grammar: each function here does nothing, and its contract is a law.
ghost use Rattle.pst_parse_member.specs.Laws.{OneTreeOfMembers};

/// At most one proper tree of each of these rules spells a list of tokens: fields, references,
/// claims, members, enums, functions, pools and binds of pools.
#[tactic(auto, using(crate::proofs::Unique::one_of_members))]
pub fn at_most_one_member()
    ensures { OneTreeOfMembers }
{}
